//! Pairs of wires in one block of settings.
ghost use Rattle.std.specs.Prelude.{◌≡◌, true, false, ℕ, ◌*◌, ◌/◌, ◌<◌, length, get_or};
ghost use Rattle.leak_search.specs.Block.{ones_of, nibbles_of, Agree};
ghost use Rattle.check_pairs.specs.Level.{held_in, held_base, Level, LevelAt, FirstUneven};

use crate::held::Held;
use leak_search::nibble;

// Whether the counts of two wires, and of both together, are those of the bases in all settings of a block. Where all
// single wires are known to have those of the bases, the two are not compared again.
fn level(block: Held, left: usize, right: usize, agreed: bool) -> bool
    requires { (left < length block.words.now) × (right < length block.words.now)
        × (agreed ≡ true → Agree (nibbles_of block.base.now) (ones_of block.words.now) (length block.words.now) 16) }
    ensures { let old = held_base block.entry.bases.now block.entry.base.now in let new = held_in block.entry.words.now
        in
        (result ≡ true → (s : ℕ) → s < 16 → Level old new left right s)
        × (result ≡ false → ((s : ℕ) → s < 16 → Level old new left right s) → ⊥) }
{
    let held = nibble::counts(block.bases[left] & block.bases[right]);
    let both = nibble::differ(held, block.words[left] & block.words[right]);
    if agreed {
        return both == 0;
    }
    let first = nibble::differ(block.base[left], block.words[left]);
    let second = nibble::differ(block.base[right], block.words[right]);
    (first | second | both) == 0
}

/// The first pair that is not level in a block.
pub fn scan(pairs: &[u32], held: Held, agreed: bool) -> Option<usize>
    requires { ((i : ℕ) → i < length pairs.now → get_or pairs.now i 0 < length held.words.now)
        × (agreed ≡ true → Agree (nibbles_of held.base.now) (ones_of held.words.now) (length held.words.now) 16) }
    ensures { FirstUneven (LevelAt (held_base held.entry.bases.now held.entry.base.now) (held_in held.entry.words.now)
        pairs.now)
        (length pairs.now / 2) 16 result }
{
    (0..pairs.len() / 2).find(|j| {
        let u = pairs[2 * *j] as usize;
        let v = pairs[2 * *j + 1] as usize;
        !level(held, u, v, agreed)
    })
}
