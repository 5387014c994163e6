//! From Fashion to the older dialect, gates unchanged. Questions 1 to 9 with the large limits, 15 and 14.
ghost use Rattle.convert.specs.ToOldPromise.{Promise};

use dialect::Dialect;
use netlist::{Answer, Sizes};

/// The netlist in `text`, written in the older dialect at the front of `out`. The tables, of any content, are zero on
/// return. A call of `convert`, as `from_old` and `rewrite` are: a service each, with a name and a promise of its own.
pub fn to_old(
    text: &[u8],
    out: &mut [u8],
    operands: &mut [u64],
    results: &mut [u64],
    marks: &mut [u8],
    sizes: Sizes,
) -> Answer
    ensures { Promise sizes text.now out.old out.new
        operands.old operands.new results.old results.new marks.old marks.new result }
{
    crate::convert(
        text,
        out,
        operands,
        results,
        marks,
        sizes,
        Dialect::Fashion,
        Dialect::Old,
    )
}
