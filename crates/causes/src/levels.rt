//! The wires that leak: those whose counts are not their base's in some setting.
ghost use Rattle.std.specs.Prelude.{◌≡◌, true, false, ℕ, ◌+◌, ◌*◌, ◌<◌, ◌≤◌, length, get_or};
ghost use Rattle.netlist.specs.Netlist.{Netlist};
ghost use Rattle.masking.specs.Calls.{max_checked};
ghost use Rattle.gates.specs.Gates.{WiredGates, HoldsGates};
ghost use Rattle.evaluate.specs.Bare.{bare_of};
ghost use Rattle.leak_search.specs.Base.{count_in};
ghost use Rattle.leak_search.specs.Block.{nibble, ones, ones_of, nibbles_of, Ready};
ghost use Rattle.leak_search.specs.Difference.{from, max_blocks};
ghost use Rattle.causes.specs.Causes.{level};
ghost use Rattle.causes.specs.Marked.{Joined, MarkOf, Tested};

use gates::Gates;
use leak_search::block::Blocks;
use leak_search::{nibble, paint, search};
use questions::codes::Codes;

// A wire's mark after a block: 1 where its counts are not its base's in some of the block's settings.
fn joined(mark: u8, base: u64, word: u64) -> u8
    ensures { Joined mark result (nibble base) (ones word) }
{
    if nibble::differ(base, word) == 0 {
        mark
    } else {
        1
    }
}

// The marks of all wires after a block.
fn mark(words: &[u64], base: &[u64], marks: &mut [u8])
    requires { (length base.now ≡ length words.now) × (length marks.old ≡ length words.now) }
    ensures { (w : ℕ) → w < length words.now
        → Joined (get_or marks.old w 0) (get_or marks.new w 0) (nibbles_of base.now w) (ones_of words.now w) }
{
    for (w, word) in words.iter().enumerate() {
        marks[w] = joined(marks[w], base[w], *word);
    }
}

// A block is run, and its differences marked.
fn block_marks(blocks: Blocks, block: u64, words: &mut [u64], base: &mut [u64], marks: &mut [u8])
    requires wired { WiredGates blocks.gates (length words.old) }
    requires lengths { (length blocks.paints.now + 2 ≤ length words.old) × (length base.old ≡ length words.old)
        × (length marks.old ≡ length words.old) × Ready blocks.publics (bare_of blocks.gates (length words.old))
        blocks.paints.now base.old block }
    ensures { let N = bare_of blocks.entry.gates (length words.old) in ((w : ℕ) → w < length words.old
        → Joined (get_or marks.old w 0) (get_or marks.new w 0)
        (from (block * 16) (count_in N false blocks.entry.paints.now) w)
        (from (block * 16) (count_in N true blocks.entry.paints.now) w))
        × Ready blocks.entry.publics N blocks.entry.paints.now base.new (block + 1) }
{
    blocks.run(true, block, words);
    blocks.refresh(block, words, base);
    mark(words, base, marks);
}

// The marks of all wires over the settings of these blocks.
fn all_marks(
    gates: Gates,
    paints: &[u8],
    blocks: u64,
    words: &mut [u64],
    base: &mut [u64],
    marks: &mut [u8],
)
    requires wired { WiredGates gates (length words.old) }
    requires lengths { (length paints.now + 2 ≤ length words.old) × (length base.old ≡ length words.old)
        × (length marks.old ≡ length words.old) × (blocks < max_blocks) }
    ensures { let N = bare_of gates.entry (length words.old) in (w : ℕ) → w < length words.old
        → MarkOf (get_or marks.new w 0) (count_in N false paints.now w) (count_in N true paints.now w) (blocks * 16) }
{
    marks.fill(0);
    let b = Blocks::new(gates, paints);
    for block in 0..blocks {
        block_marks(b, block, words, base, marks);
    }
}

/// Marks 1 for the wires of the gates' netlist that do not have equal counts under the input codes, 0 for those that
/// have. The words and the base, one entry for each wire, are working store.
pub fn levels(gates: Gates, codes: Codes, words: &mut [u64], base: &mut [u64], marks: &mut [u8])
    requires wired { WiredGates gates (length words.old) }
    requires lengths { (length codes.list.now ≤ max_checked) × (length codes.list.now + 2 ≤ length words.old)
        × (length base.old ≡ length words.old) × (length marks.old ≡ length words.old) }
    ensures { (n o : ℕ) (N : Netlist) → HoldsGates gates.entry (length words.old) n o N
        → Tested (level N codes.entry.list.now) (length words.old) marks.new }
{
    let mut room = [0u8; 12];
    let paints = paint::each(codes, &mut room);
    let blocks = search::blocks_of(codes.list.len());
    all_marks(gates, paints, blocks, words, base, marks);
}
