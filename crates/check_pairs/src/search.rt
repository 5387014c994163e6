//! The search for a leak on a wire and for a bad pair, block by block.
ghost use Rattle.std.specs.Prelude.{◌≡◌, true, false, ℕ, ◌+◌, ◌*◌, ◌/◌, ◌<◌, ◌≤◌, length, get_or};
ghost use Rattle.std.specs.Option.{unwrap_or};
ghost use Rattle.netlist.specs.Netlist.{Netlist};
ghost use Rattle.masking.specs.Leak.{leak as leak_of};
ghost use Rattle.masking.specs.Calls.{max_checked};
ghost use Rattle.gates.specs.Gates.{WiredGates, HoldsGates};
ghost use Rattle.evaluate.specs.Bare.{bare_of};
ghost use Rattle.leak_search.specs.Block.{Evaluated};
ghost use Rattle.leak_search.specs.Difference.{wire_of, max_blocks};
ghost use Rattle.leak_search.specs.Search.{found_of};
ghost use Rattle.check_pairs.specs.Pairs.{clean_pair, first_bad};
ghost use Rattle.check_pairs.specs.Level.{Counts, counts_of, held_in, held_base, on_from, Alike};
ghost use Rattle.check_pairs.specs.Bases.{Based, HeldOn};
ghost use Rattle.check_pairs.specs.Search.{bad_of, Found};

use crate::held::Held;
use crate::{base, pair};
use gates::Gates;
use leak_search::block::Blocks;
use leak_search::difference::Leak;
use leak_search::{difference, paint};
use questions::codes::Codes;

/// The lowest leak, and how many pairs stand before the first bad one; none where all are clean.
#[derive(Clone, Copy, Debug, Default, PartialEq, Eq)]
pub struct PairsFound<S = u64> {
    pub leak: Option<Leak<S>>,
    pub pair: Option<usize>,
}

// A block is run: the words of its settings, the words of their bases, and the counts of these.
fn run(blocks: Blocks, block: u64, words: &mut [u64], bases: &mut [u64], base: &mut [u64])
    requires wired { WiredGates blocks.gates (length words.old) }
    requires lengths { (length blocks.paints.now + 2 ≤ length words.old) × (length bases.old ≡ length words.old)
        × (length base.old ≡ length words.old)
        × HeldOn blocks.publics (bare_of blocks.gates (length words.old)) blocks.paints.now bases.old base.old block }
    ensures { let N = bare_of blocks.entry.gates (length words.old) in
        Evaluated N true blocks.entry.paints.now words.new block
        × Based N blocks.entry.paints.now bases.new base.new block
        × HeldOn blocks.entry.publics N blocks.entry.paints.now bases.new base.new (block + 1) }
{
    blocks.run(true, block, words);
    base::refresh(blocks, block, words, bases, base);
}

// The better of the best so far, of wires below a limit, and what a block shows. Wires above the lowest leak, and pairs
// after the first bad one, are looked at no more.
fn look(held: Held, pairs: &[u32], limit: usize, best: PairsFound, block: u64) -> PairsFound
    requires { (block < max_blocks) × (wire_of limit best.leak ≤ length held.words.now)
        × (unwrap_or best.pair (length pairs.now / 2) ≤ length pairs.now / 2)
        × ((i : ℕ) → i < length pairs.now → get_or pairs.now i 0 < length held.words.now) }
    ensures { (based counts : Counts) → Alike (held_base held.entry.bases.now held.entry.base.now)
        (on_from (block * 16) based)
        → Alike (held_in held.entry.words.now) (on_from (block * 16) counts)
        → Found based counts pairs.now limit (length pairs.now / 2) (block * 16) best
        → Found based counts pairs.now limit (length pairs.now / 2) (block * 16 + 16) result }
{
    let wires = difference::limit(best.leak, limit);
    let found = difference::scan(held.words, held.base, wires);
    let agreed = wires == held.words.len() && found.is_none();
    let before = best.pair.unwrap_or(pairs.len() / 2);
    let pair = pair::scan(&pairs[..2 * before], held, agreed);
    PairsFound {
        leak: difference::better(best.leak, found, block),
        pair: pair.or(best.pair),
    }
}

/// The first wire below a limit and the first pair whose counts are not those of the base, over all settings of these
/// blocks.
pub fn find(
    gates: Gates,
    paints: &[u8],
    pairs: &[u32],
    limit: usize,
    blocks: u64,
    words: &mut [u64],
    bases: &mut [u64],
    base: &mut [u64],
) -> PairsFound
    requires wired { WiredGates gates (length words.old) }
    requires lengths { (length paints.now + 2 ≤ length words.old) × (length bases.old ≡ length words.old)
        × (length base.old ≡ length words.old) × (blocks < max_blocks) × (limit ≤ length words.old)
        × ((i : ℕ) → i < length pairs.now → get_or pairs.now i 0 < length words.old) }
    ensures { let N = bare_of gates.entry (length words.old) in
        Found (counts_of N false paints.now) (counts_of N true paints.now) pairs.now limit
        (length pairs.now / 2) (blocks * 16) result }
{
    let b = Blocks::new(gates, paints);
    let mut best = PairsFound::default();
    for block in 0..blocks {
        run(b, block, words, bases, base);
        best = look(Held { words, bases, base }, pairs, limit, best, block);
    }
    best
}

/// Whether the gates' netlist is clean under the input codes, and each listed pair of its wires. The three tables of
/// words, one entry for each wire, are working store.
pub fn search(
    gates: Gates,
    codes: Codes,
    pairs: &[u32],
    words: &mut [u64],
    bases: &mut [u64],
    base: &mut [u64],
) -> PairsFound
    requires wired { WiredGates gates (length words.old) }
    requires lengths { (length codes.list.now ≤ max_checked) × (length codes.list.now + 2 ≤ length words.old)
        × (length bases.old ≡ length words.old)
        × (length base.old ≡ length words.old) × ((i : ℕ) → i < length pairs.now → get_or pairs.now i 0 < length
        words.old) }
    ensures { (n o : ℕ) (N : Netlist) → HoldsGates gates.entry (length words.old) n o N
        → (found_of result.leak ≡ leak_of N codes.entry.list.now) ×
        (bad_of result.pair ≡ first_bad (clean_pair N codes.entry.list.now) pairs.now) }
{
    let mut room = [0u8; 12];
    let paints = paint::each(codes, &mut room);
    let wires = words.len();
    find(
        gates,
        paints,
        pairs,
        wires,
        leak_search::search::blocks_of(codes.list.len()),
        words,
        bases,
        base,
    )
}
