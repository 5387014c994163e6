//! Check: whether a netlist whose last input value is the mask pair leaks on one wire. Questions 1 to 12 with the large
//! limits.
#![tactic(auto)]

pub mod judge;

ghost use Rattle.std.specs.Prelude.{◌≡◌};
ghost use Rattle.checker.specs.Verdict.{outcome_of};
ghost use Rattle.checker.specs.Promise.{call, Promise};

use crate::judge::Checked;
use netlist::Sizes;
use reader::judged::read;

// The answer, with tables that are still to be cleared.
fn answer(
    text: &[u8],
    codes: &[u8],
    operands: &mut [u64],
    results: &mut [u64],
    marks: &mut [u8],
    words: &mut [u64],
    base: &mut [u64],
    sizes: Sizes,
) -> Checked
    ensures { outcome_of result ≡ call sizes text.now codes.now operands.old results.old
        marks.old words.old base.old }
{
    let mut widths = [0u32; 17];
    let netlist = read(
        text,
        &mut widths,
        operands,
        results,
        marks,
        &[words.len(), base.len()],
        sizes.masked_limits(),
    )?;
    crate::judge::judge(netlist, codes, words, base)
}

/// Whether the netlist in `text` is clean under the input codes. The tables, of any content, are zero on return.
pub fn check(
    text: &[u8],
    codes: &[u8],
    operands: &mut [u64],
    results: &mut [u64],
    marks: &mut [u8],
    words: &mut [u64],
    base: &mut [u64],
    sizes: Sizes,
) -> Checked
    ensures { Promise sizes text.now codes.now operands.old operands.new results.old
        results.new marks.old marks.new words.old words.new base.old
        base.new result }
{
    let r = answer(text, codes, operands, results, marks, words, base, sizes);
    operands.fill(0);
    results.fill(0);
    marks.fill(0);
    words.fill(0);
    base.fill(0);
    r
}
