//! What a block of settings is compared by.
ghost use Rattle.std.specs.Prelude.{◌≡◌, length};

/// The words of all wires in a block of settings, those of their bases, and the counts of these, to read: as many of
/// each.
#[derive(Clone, Copy)]
pub struct Held<'a> {
    pub words: &'a [u64],
    pub bases: &'a [u64],
    pub base: &'a [u64],
    ghost long_bases: { length bases.now ≡ length words.now },
    ghost long_base: { length base.now ≡ length words.now },
}
