//! The sets of all wires in tables that are lent.
ghost use Rattle.std.specs.Prelude.{length};
ghost use Rattle.check_wide.specs.Packed.{sets, Sized};

/// The four tables of the sets of all wires, to read: each is as long as the first, and no set has more than twelve
/// members.
#[derive(Clone, Copy)]
pub struct WireSets<'a> {
    pub set0: &'a [u64],
    pub set1: &'a [u64],
    pub set2: &'a [u64],
    pub set3: &'a [u64],
    ghost sized: { Sized (sets set0.now set1.now set2.now set3.now) (length set0.now) },
}
