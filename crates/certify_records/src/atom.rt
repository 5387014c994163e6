//! The places of a record's table by the bit of one atom.
ghost use Rattle.std.specs.Prelude.{◌<◌};

/// The places where an atom is zero, as the bits of a word. Where it is one, and all else is as before, lies so many
/// places above.
#[derive(Clone, Copy)]
pub struct AtomPlaces {
    pub zero: u64,
    pub up: u32,
    ghost within: { up < 64 },
}

/// Those of a record's four atoms: bit j of s in place 4 s + m is the bit of atom j.
pub const FIRST: AtomPlaces = AtomPlaces {
    zero: 0x0f0f_0f0f_0f0f_0f0f,
    up: 4,
};

pub const SECOND: AtomPlaces = AtomPlaces {
    zero: 0x00ff_00ff_00ff_00ff,
    up: 8,
};

pub const THIRD: AtomPlaces = AtomPlaces {
    zero: 0x0000_ffff_0000_ffff,
    up: 16,
};

pub const FOURTH: AtomPlaces = AtomPlaces {
    zero: 0x0000_0000_ffff_ffff,
    up: 32,
};
