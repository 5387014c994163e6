//! The words of the bases of a block's settings, and the counts of single wires in them.
ghost use Rattle.std.specs.Prelude.{◌≡◌, true, false, ℕ, ◌+◌, ◌%◌, ◌<◌, ◌≤◌, length, get_or};
ghost use Rattle.gates.specs.Gates.{WiredGates};
ghost use Rattle.evaluate.specs.Bare.{bare_of};
ghost use Rattle.evaluate.specs.Lane.{lane};
ghost use Rattle.leak_search.specs.Block.{ones_of, nibbles_of, Evaluated};
ghost use Rattle.check_pairs.specs.Bases.{Based, HeldOn};

use evaluate::lay::each;
use leak_search::block::Blocks;
use leak_search::nibble;

// The lanes of the first setting, for all.
fn repeat(words: &[u64], bases: &mut [u64])
    requires { length bases.old ≡ length words.now }
    ensures { (w j : ℕ) → j < 64 → lane j (get_or bases.new w 0) ≡ lane (j % 4) (get_or words.now w 0) }
{
    each(words, bases, nibble::repeat);
}

// The counts of words.
fn tally(bases: &[u64], base: &mut [u64])
    requires { length base.old ≡ length bases.now }
    ensures { (w s : ℕ) → s < 16 → nibbles_of base.new w s ≡ ones_of bases.now w s }
{
    each(bases, base, nibble::counts);
}

/// The words and the counts of the bases of a block's settings. If no bit is public, setting 0 is the base of all
/// settings, and its words are taken from the first block's.
pub fn refresh(blocks: Blocks, block: u64, words: &[u64], bases: &mut [u64], base: &mut [u64])
    requires wired { WiredGates blocks.gates (length words.now) }
    requires lengths { (length blocks.paints.now + 2 ≤ length words.now) × (length bases.old ≡ length words.now)
        × (length base.old ≡ length words.now) }
    requires held { let N = bare_of blocks.gates (length words.now) in
        Evaluated N true blocks.paints.now words.now block
        × HeldOn blocks.publics N blocks.paints.now bases.old base.old block }
    ensures { let N = bare_of blocks.entry.gates (length words.now) in
        Based N blocks.entry.paints.now bases.new base.new block
        × HeldOn blocks.entry.publics N blocks.entry.paints.now bases.new base.new (block + 1) }
{
    if blocks.publics {
        blocks.run(false, block, bases);
        tally(bases, base);
    } else if block == 0 {
        repeat(words, bases);
        tally(bases, base);
    }
}
