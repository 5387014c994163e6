//! The type of what is to be served. Its functions stand in item.rt, since their contracts cite definitions that name
//! the type.
ghost use Rattle.std.specs.Prelude.{ℕ, ◌<◌, length, get_or};
ghost use Rattle.check_wide.specs.WireSets.{sets_of};
ghost use Rattle.check_wide.specs.Items.{PairsFew};

use crate::wire_sets::WireSets;

/// The wires, by their sets, and the listed pairs of wires; at most twelve inputs reach each wire and each pair.
#[derive(Clone, Copy)]
pub struct Items<'s, 'p> {
    pub sets: WireSets<'s>,
    pub pairs: &'p [u32],
    ghost below: { (i : ℕ) → i < length pairs.now → get_or pairs.now i 0 < length sets.set0.now },
    ghost few: { PairsFew (sets_of sets) pairs.now },
}
