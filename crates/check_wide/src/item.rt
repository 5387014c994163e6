//! The items that are to be served, by their numbers: the wires come first, then the listed pairs. An item's set is
//! that of the inputs that reach it.
ghost use Rattle.std.specs.Prelude.{◌≡◌, ℕ, ◌+◌, ◌*◌, ◌/◌, ◌<◌, length, get_or, take};
ghost use Rattle.check_wide.specs.Packed.{set_at};
ghost use Rattle.check_wide.specs.WireSets.{sets_of};
ghost use Rattle.check_wide.specs.Together.{Together};
ghost use Rattle.check_wide.specs.Items.{is_marked};
ghost use Rattle.check_wide.specs.Served.{count_of, set_of};

use crate::items::Items;
use crate::members::InputSet;
use crate::unite;
use crate::wire_sets::WireSets;
use gates::entries::entry;

/// The inputs that reach one wire of pair j or the other; none where they are more than twelve.
pub fn pair(pairs: &[u32], sets: WireSets, index: usize) -> Option<InputSet>
    requires { (index < length pairs.now / 2)
        × ((i : ℕ) → i < length pairs.now → get_or pairs.now i 0 < length sets.set0.now) }
    ensures { let S = sets_of sets.entry in Together (set_at S (get_or pairs.now (2 * index) 0))
        (set_at S (get_or pairs.now (2 * index + 1) 0)) result }
{
    let u = pairs[2 * index] as usize;
    let v = pairs[2 * index + 1] as usize;
    let x = sets.at(u);
    let y = sets.at(v);
    unite::both(x, y)
}

/// The set of item k.
pub fn set(items: Items, index: usize) -> InputSet
    requires { index < count_of items }
    ensures { take result.count result.items ≡ set_of items.entry index }
{
    let wires = items.sets.set0.len();
    if index < wires {
        return items.sets.at(index);
    }
    pair(items.pairs, items.sets, index - wires).unwrap()
}

/// Whether an item is marked as served; one for which there is no mark is not.
pub fn marked(marks: &[u8], item: usize) -> bool
    ensures { result ≡ is_marked marks.now item }
{
    entry(marks, item) != 0
}
