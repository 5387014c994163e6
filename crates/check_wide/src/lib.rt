//! Check of netlists with many inputs: what Check with pairs decides, where at most twelve input bits besides the mask
//! pair reach each wire and each listed pair through gate lines. Questions 1 to 11 with the large limits, then 21, then
//! 12.
#![tactic(auto)]

pub mod colours;
pub mod item;
pub mod items;
pub mod job;
pub mod judge;
pub mod members;
pub mod pass;
pub mod reach;
pub mod search;
pub mod unite;
pub mod wire_sets;

ghost use Rattle.std.specs.Prelude.{◌≡◌};
ghost use Rattle.check_wide.specs.Verdict.{outcome_of};
ghost use Rattle.check_wide.specs.Promise.{call, Promise};

use crate::judge::CheckedWide;
use netlist::Sizes;
use reader::judged::read;

// The answer, with tables that are still to be cleared.
fn answer(
    text: &[u8],
    codes: &[u8],
    pairs: &[u32],
    operands: &mut [u64],
    results: &mut [u64],
    marks: &mut [u8],
    words: &mut [u64],
    base: &mut [u64],
    bases: &mut [u64],
    set0: &mut [u64],
    set1: &mut [u64],
    set2: &mut [u64],
    set3: &mut [u64],
    paints: &mut [u8],
    sizes: Sizes,
) -> CheckedWide
    ensures { outcome_of result ≡ call sizes text.now codes.now pairs.now operands.old
        results.old marks.old words.old base.old bases.old set0.old
        set1.old set2.old set3.old paints.old }
{
    let mut widths = [0u32; 17];
    let netlist = read(
        text,
        &mut widths,
        operands,
        results,
        marks,
        &[
            words.len(),
            base.len(),
            bases.len(),
            set0.len(),
            set1.len(),
            set2.len(),
            set3.len(),
            paints.len(),
        ],
        sizes.masked_limits(),
    )?;
    crate::judge::judge(
        netlist, codes, pairs, marks, words, base, bases, set0, set1, set2, set3, paints,
    )
}

/// Whether the netlist in `text` is clean under the input codes, and each pair of wires: pair j is entries 2j and 2j +
/// 1 of `pairs`. A leak's setting comes as the rising list of the input bits that are one. The tables, of any content,
/// are zero on return.
pub fn check_wide(
    text: &[u8],
    codes: &[u8],
    pairs: &[u32],
    operands: &mut [u64],
    results: &mut [u64],
    marks: &mut [u8],
    words: &mut [u64],
    base: &mut [u64],
    bases: &mut [u64],
    set0: &mut [u64],
    set1: &mut [u64],
    set2: &mut [u64],
    set3: &mut [u64],
    paints: &mut [u8],
    sizes: Sizes,
) -> CheckedWide
    ensures { Promise sizes text.now codes.now pairs.now operands.old operands.new
        results.old results.new marks.old marks.new words.old words.new
        base.old base.new bases.old bases.new set0.old set0.new
        set1.old set1.new set2.old set2.new set3.old set3.new
        paints.old paints.new result }
{
    let r = answer(
        text, codes, pairs, operands, results, marks, words, base, bases, set0, set1, set2, set3,
        paints, sizes,
    );
    operands.fill(0);
    results.fill(0);
    marks.fill(0);
    words.fill(0);
    base.fill(0);
    bases.fill(0);
    set0.fill(0);
    set1.fill(0);
    set2.fill(0);
    set3.fill(0);
    paints.fill(0);
    r
}
