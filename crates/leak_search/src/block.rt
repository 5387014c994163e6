//! The words of all wires in one block of settings, and the counts that those are compared with.
ghost use Rattle.std.specs.Prelude.{◌≡◌, true, false, ℕ, ◌+◌, ◌%◌, ◌<◌, ◌≤◌, length, get_or};
ghost use Rattle.masking.specs.Leak.{Secret};
ghost use Rattle.gates.specs.Gates.{WiredGates};
ghost use Rattle.evaluate.specs.Bare.{bare_of};
ghost use Rattle.leak_search.specs.Paint.{codes_of};
ghost use Rattle.leak_search.specs.Block.{nibble, ones, ones_of, nibbles_of, Evaluated, Counted, Ready};

use crate::{load, nibble};
use evaluate::lay::each;
use gates::Gates;

/// What blocks of settings are run with: the gates, the paints of the input bits, and whether one of these is public.
#[derive(Clone, Copy)]
pub struct Blocks<'a> {
    pub gates: Gates<'a>,
    pub paints: &'a [u8],
    pub publics: bool,
}

// Whether some input bit is public.
fn any_public(paints: &[u8]) -> bool
    ensures { (result ≡ true → Secret (codes_of paints.now) → ⊥) × (result ≡ false → Secret (codes_of paints.now)) }
{
    paints.iter().any(|paint| *paint % 4 == 0)
}

// Each word's counts in its own place, which `each` cannot write while it reads the words.
fn tally(words: &mut [u64])
    ensures { (w s : ℕ) → s < 16 → nibbles_of words.new w s ≡ ones_of words.old w s }
{
    for word in words.iter_mut() {
        *word = nibble::counts(*word);
    }
}

// A word's count in the first setting, for all settings.
fn first_count(word: u64) -> u64
    ensures { (s : ℕ) → s < 16 → nibble result s ≡ ones word 0 }
{
    nibble::repeat(nibble::counts(word))
}

/// The words' counts in the first setting, for all settings.
pub fn first(words: &[u64], base: &mut [u64])
    requires { length base.old ≡ length words.now }
    ensures { (w s : ℕ) → s < 16 → nibbles_of base.new w s ≡ ones_of words.now w 0 }
{
    each(words, base, first_count);
}

impl<'a> Blocks<'a> {
    /// What blocks of these gates under these paints are run with.
    pub fn new(gates: Gates<'a>, paints: &'a [u8]) -> Self
        ensures fields { (result.gates ≡ gates.entry) × (result.paints ≡ paints.entry) }
        ensures publics { (result.publics ≡ true → Secret (codes_of paints.now) → ⊥)
            × (result.publics ≡ false → Secret (codes_of paints.now)) }
    {
        Blocks {
            gates,
            paints,
            publics: any_public(paints),
        }
    }

    /// The words of all wires in a block's settings, or in their bases.
    pub fn run(self, secrets: bool, block: u64, words: &mut [u64])
        requires wired { WiredGates self.gates (length words.old) }
        requires lengths { length self.paints.now + 2 ≤ length words.old }
        ensures { let N = bare_of self.entry.gates (length words.old) in
            Evaluated N secrets self.entry.paints.now words.new block }
    {
        load::inputs(self.paints, secrets, block, words);
        evaluate::wires(self.gates, self.paints.len() + 2, words);
    }

    /// The counts of the bases of a block's settings. If no bit is public, setting 0 is the base of all
    /// settings, and its counts are taken from the first block's words.
    pub fn refresh(self, block: u64, words: &[u64], base: &mut [u64])
        requires wired { WiredGates self.gates (length words.now) }
        requires lengths { (length self.paints.now + 2 ≤ length words.now) × (length base.old ≡ length words.now) }
        requires held { let N = bare_of self.gates (length words.now) in
            Counted N true self.paints.now (ones_of words.now) block
            × Ready self.publics N self.paints.now base.old block }
        ensures { let N = bare_of self.entry.gates (length words.now) in
            Counted N false self.entry.paints.now (nibbles_of base.new) block
            × Ready self.entry.publics N self.entry.paints.now base.new (block + 1) }
    {
        if self.publics {
            self.run(false, block, base);
            tally(base);
        } else if block == 0 {
            first(words, base);
        }
    }
}
