//! Check with pairs: whether a netlist whose last input value is the mask pair leaks on one wire, and whether listed
//! pairs of its wires, as a register shows them that holds one after the other, leak together. Questions 1 to 12 with
//! the large limits, and 21.
#![tactic(auto)]

mod base;
mod held;
pub mod judge;
mod pair;
pub mod search;

ghost use Rattle.std.specs.Prelude.{◌≡◌};
ghost use Rattle.check_pairs.specs.Judge.{outcome_of};
ghost use Rattle.check_pairs.specs.Promise.{call, Promise};

use crate::judge::CheckedPairs;
use netlist::Sizes;
use reader::judged::read;

// The answer, with tables that are still to be cleared.
fn answer(
    text: &[u8],
    codes: &[u8],
    pairs: &[u32],
    operands: &mut [u64],
    results: &mut [u64],
    marks: &mut [u8],
    words: &mut [u64],
    base: &mut [u64],
    bases: &mut [u64],
    sizes: Sizes,
) -> CheckedPairs
    ensures { outcome_of result ≡ call sizes text.now codes.now pairs.now operands.old
        results.old marks.old words.old base.old bases.old }
{
    let mut widths = [0u32; 17];
    let netlist = read(
        text,
        &mut widths,
        operands,
        results,
        marks,
        &[words.len(), base.len(), bases.len()],
        sizes.masked_limits(),
    )?;
    crate::judge::judge(netlist, codes, pairs, words, base, bases)
}

/// Whether the netlist in `text` is clean under the input codes, and each pair of wires: pair j is entries 2j and 2j +
/// 1 of `pairs`. The tables, of any content, are zero on return.
pub fn check_pairs(
    text: &[u8],
    codes: &[u8],
    pairs: &[u32],
    operands: &mut [u64],
    results: &mut [u64],
    marks: &mut [u8],
    words: &mut [u64],
    base: &mut [u64],
    bases: &mut [u64],
    sizes: Sizes,
) -> CheckedPairs
    ensures { Promise sizes text.now codes.now pairs.now operands.old operands.new
        results.old results.new marks.old marks.new words.old words.new
        base.old base.new bases.old bases.new result }
{
    let r = answer(
        text, codes, pairs, operands, results, marks, words, base, bases, sizes,
    );
    operands.fill(0);
    results.fill(0);
    marks.fill(0);
    words.fill(0);
    base.fill(0);
    bases.fill(0);
    r
}
