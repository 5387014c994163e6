//! The search for a leak, block by block.
ghost use Rattle.std.specs.Prelude.{◌≡◌, true, false, ℕ, ◌+◌, ◌*◌, ◌^◌, ◌<◌, ◌≤◌, length};
ghost use Rattle.netlist.specs.Netlist.{Netlist};
ghost use Rattle.masking.specs.Leak.{leak};
ghost use Rattle.masking.specs.Calls.{max_checked};
ghost use Rattle.gates.specs.Gates.{WiredGates, HoldsGates};
ghost use Rattle.evaluate.specs.Bare.{bare_of};
ghost use Rattle.leak_search.specs.Base.{count_in};
ghost use Rattle.leak_search.specs.Block.{Ready};
ghost use Rattle.leak_search.specs.Difference.{LowestDifference, from, max_blocks};
ghost use Rattle.leak_search.specs.Search.{found_of};

use crate::block::Blocks;
use crate::difference::Leak;
use crate::{difference, paint};
use gates::Gates;
use questions::codes::Codes;

// A block is run and searched, for wires below a limit.
fn search_block(
    blocks: Blocks,
    block: u64,
    words: &mut [u64],
    base: &mut [u64],
    limit: usize,
) -> Option<Leak>
    requires wired { WiredGates blocks.gates (length words.old) }
    requires lengths { (length blocks.paints.now + 2 ≤ length words.old) × (length base.old ≡ length words.old)
        × (limit ≤ length words.old) × Ready blocks.publics (bare_of blocks.gates (length words.old)) blocks.paints.now
        base.old block }
    ensures { let N = bare_of blocks.entry.gates (length words.old) in LowestDifference
        (from (block * 16) (count_in N false blocks.entry.paints.now))
        (from (block * 16) (count_in N true blocks.entry.paints.now)) limit 16 result
        × Ready blocks.entry.publics N blocks.entry.paints.now base.new (block + 1) }
{
    blocks.run(true, block, words);
    blocks.refresh(block, words, base);
    difference::scan(words, base, limit)
}

// The first wire whose counts are not those of its base, over all settings of these blocks. Blocks
// rise, and wires above the lowest difference are looked at no more.
fn find(
    gates: Gates,
    paints: &[u8],
    blocks: u64,
    words: &mut [u64],
    base: &mut [u64],
) -> Option<Leak>
    requires wired { WiredGates gates (length words.old) }
    requires lengths { (length paints.now + 2 ≤ length words.old) × (length base.old ≡ length words.old)
        × (blocks < max_blocks) }
    ensures { let N = bare_of gates.entry (length words.old) in LowestDifference
        (count_in N false paints.now) (count_in N true paints.now) (length words.old) (blocks * 16) result }
{
    let b = Blocks::new(gates, paints);
    let mut best = None;
    for block in 0..blocks {
        let limit = difference::limit(best, words.len());
        let found = search_block(b, block, words, base, limit);
        best = difference::better(best, found, block);
    }
    best
}

/// How many blocks hold the settings of k input bits, sixteen in each.
pub fn blocks_of(index: usize) -> u64
    requires { index < 20 }
    ensures { (2 ^ index ≤ result * 16) × (result < max_blocks) }
{
    if index < 4 { 1 } else { 1 << (index - 4) }
}

/// The leak of the gates' netlist under the input codes, or none: then it is clean. The words and
/// the base, one entry for each wire, are working store.
pub fn leaks(gates: Gates, codes: Codes, words: &mut [u64], base: &mut [u64]) -> Option<Leak>
    requires wired { WiredGates gates (length words.old) }
    requires lengths { (length codes.list.now ≤ max_checked) × (length codes.list.now + 2 ≤ length words.old)
        × (length base.old ≡ length words.old) }
    ensures { (n o : ℕ) (N : Netlist) → HoldsGates gates.entry
        (length words.old) n o N → found_of result ≡ leak N codes.entry.list.now }
{
    let mut room = [0u8; 12];
    let paints = paint::each(codes, &mut room);
    find(gates, paints, blocks_of(codes.list.len()), words, base)
}
