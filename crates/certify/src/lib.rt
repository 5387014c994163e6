//! Certify: whether a netlist of any number of input bits, whose last input value is the mask pair, leaks on one wire.
//! Questions 1 to 11 with the large limits, and 14.
#![tactic(auto)]

mod gate;
pub mod hints;
mod inputs;
pub mod judge;
pub mod keeping;
mod load;
pub mod marks;
mod ones;
pub mod pass;
pub mod search;
pub mod store;

ghost use Rattle.certify.specs.Promise.{call, Answers, Promise};

use crate::judge::Certified;
use netlist::Sizes;
use reader::judged::read;

// The answer, with tables that are still to be cleared.
fn answer(
    text: &[u8],
    codes: &[u8],
    leak: &mut [u64],
    ones: &mut [u64],
    operands: &mut [u64],
    results: &mut [u64],
    marks: &mut [u8],
    words: &mut [u64],
    base: &mut [u64],
    records: &mut [u64],
    sizes: Sizes,
) -> Certified
    ensures { Answers (call sizes text.now codes.now operands.old results.old
        marks.old words.old base.old records.old) codes.now leak.old
        leak.new ones.old ones.new result }
{
    let mut widths = [0u32; 17];
    let netlist = read(
        text,
        &mut widths,
        operands,
        results,
        marks,
        &[words.len(), base.len(), records.len() / 15],
        sizes.masked_limits(),
    )?;
    crate::judge::judge(netlist, codes, leak, ones, marks, words, base, records)
}

/// Whether every wire of the netlist in `text` is clean under the input codes. A leak's four numbers, or the lowest
/// wire not known to be clean, go to `leak`, and the input bits that are one in a leak's setting to `ones`. The tables,
/// of any content, are zero on return.
pub fn certify(
    text: &[u8],
    codes: &[u8],
    leak: &mut [u64],
    ones: &mut [u64],
    operands: &mut [u64],
    results: &mut [u64],
    marks: &mut [u8],
    words: &mut [u64],
    base: &mut [u64],
    records: &mut [u64],
    sizes: Sizes,
) -> Certified
    ensures { Promise sizes text.now codes.now leak.old leak.new ones.old
        ones.new operands.old operands.new results.old results.new marks.old
        marks.new words.old words.new base.old base.new records.old
        records.new result }
{
    let r = answer(
        text, codes, leak, ones, operands, results, marks, words, base, records, sizes,
    );
    operands.fill(0);
    results.fill(0);
    marks.fill(0);
    words.fill(0);
    base.fill(0);
    records.fill(0);
    r
}
