//! From the older dialect to Fashion, gates unchanged. Questions 1 to 9 with the large limits, and 14.
ghost use Rattle.convert.specs.FromOldPromise.{Promise};

use dialect::Dialect;
use netlist::{Answer, Sizes};

/// The netlist of the old text in `text`, written in Fashion at the front of `out`. The tables, of any content, are
/// zero on return. A call of `convert`, as `to_old` and `rewrite` are: a service each, with a name and a promise of its
/// own.
pub fn from_old(
    text: &[u8],
    out: &mut [u8],
    operands: &mut [u64],
    results: &mut [u64],
    marks: &mut [u8],
    sizes: Sizes,
) -> Answer
    ensures { Promise sizes text.now out.old out.new
        operands.old operands.new results.old results.new marks.old marks.new result }
{
    crate::convert(
        text,
        out,
        operands,
        results,
        marks,
        sizes,
        Dialect::Old,
        Dialect::Fashion,
    )
}
