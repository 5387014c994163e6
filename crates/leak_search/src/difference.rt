//! The first wire, and its first setting, with another count than its base: in one block, and over several.
ghost use Rattle.std.specs.Prelude.{◌≡◌, true, false, ℕ, ◌+◌, ◌*◌, ◌<◌, ◌≤◌, length};
ghost use Rattle.leak_search.specs.Block.{ones_of, nibbles_of, Agree};
ghost use Rattle.leak_search.specs.Difference.{LowestDifference, wire_of, from, max_blocks};

use crate::nibble;

/// A wire, a setting in which its count is not its base's, the base's count and its own. The setting is told by its
/// number or, where the inputs are many, by those that are one in it.
#[derive(Clone, Copy, Debug, PartialEq, Eq)]
pub struct Leak<S = u64> {
    pub wire: usize,
    pub setting: S,
    pub base: u8,
    pub own: u8,
}

/// The wire of the lowest leak so far, or the number of wires: those below are still to be searched.
pub fn limit(best: Option<Leak>, wires: usize) -> usize
    ensures { result ≡ wire_of wires best }
{
    best.map_or(wires, |leak| leak.wire)
}

// Whether all wires have the counts of their bases. The loop does not stop at the first that has not, so that it can be
// compiled to compare many wires at a time: with it, and the bases' counts of the first block, checking came from 1.63
// times the plain C to 1.11.
fn all_level(words: &[u64], base: &[u64]) -> bool
    requires { length base.now ≡ length words.now }
    ensures { (result ≡ true → Agree (nibbles_of base.now) (ones_of words.now) (length words.now) 16)
        × (result ≡ false → Agree (nibbles_of base.now) (ones_of words.now) (length words.now) 16 → ⊥) }
{
    let mut d = 0;
    for (w, word) in words.iter().enumerate() {
        d |= nibble::differ(base[w], *word);
    }
    d == 0
}

// The first wire whose counts are not those of its base, and the first of the block's settings where they are not.
fn first_difference(words: &[u64], base: &[u64]) -> Option<Leak>
    requires { length base.now ≡ length words.now }
    ensures { LowestDifference (nibbles_of base.now) (ones_of words.now) (length words.now) 16 result }
{
    for (w, word) in words.iter().enumerate() {
        let d = nibble::differ(base[w], *word);
        if d != 0 {
            let s = nibble::first(d);
            return Some(Leak {
                wire: w,
                setting: u64::from(s),
                base: nibble::at(base[w], s),
                own: nibble::count(*word, s),
            });
        }
    }
    None
}

/// The lowest wire whose count differs. Most blocks show no difference, so all wires are compared at once before one is
/// looked for.
pub fn scan(words: &[u64], base: &[u64], limit: usize) -> Option<Leak>
    requires { (limit ≤ length words.now) × (limit ≤ length base.now) }
    ensures { LowestDifference (nibbles_of base.now) (ones_of words.now) limit 16 result }
{
    let words = &words[..limit];
    let base = &base[..limit];
    if all_level(words, base) {
        None
    } else {
        first_difference(words, base)
    }
}

/// A block's leak, which was looked for below the lowest so far, or else that one.
pub fn better(best: Option<Leak>, found: Option<Leak>, block: u64) -> Option<Leak>
    requires { block < max_blocks }
    ensures { (f g : ℕ → ℕ → ℕ) (W : ℕ) → LowestDifference f g W (block * 16) best
        → LowestDifference (from (block * 16) f) (from (block * 16) g) (wire_of W best) 16 found
        → LowestDifference f g W (block * 16 + 16) result }
{
    found
        .map(|leak| Leak {
            setting: (block * 16).wrapping_add(leak.setting),
            ..leak
        })
        .or(best)
}
