//! Sixty-four runs in one pass: a word for each input bit in, a word for each output bit out; bit j of every word
//! belongs to setting j. Questions 1 to 9 with the large limits, 11 (the list's length alone) and 14. A service beside
//! `run`, which has lists and a promise of its own: both call one function.
ghost use Rattle.run.specs.SixtyFourPromise.{Promise};

use netlist::{Answer, Sizes};

/// The output words of the netlist in `text` on the words of `list`, at the front of `out`. The tables, of any content,
/// are zero on return.
pub fn run64(
    text: &[u8],
    list: &[u64],
    out: &mut [u64],
    operands: &mut [u64],
    results: &mut [u64],
    marks: &mut [u8],
    words: &mut [u64],
    sizes: Sizes,
) -> Answer
    ensures { Promise sizes text.now list.now out.old out.new operands.old
        operands.new results.old results.new marks.old marks.new
        words.old words.new result }
{
    crate::any_run::run(text, list, out, operands, results, marks, words, sizes)
}
