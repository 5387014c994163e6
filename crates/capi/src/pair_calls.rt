//! Check with pairs for programs in C and Rust.
ghost use Rattle.check_pairs.specs.Promise.{Promise};
ghost use Rattle.capi.specs.Number.{sizes_of};
ghost use Rattle.capi.specs.Pairs.{ToldBoth};

use crate::answers::sizes;
use crate::pair_answers::tell;

/// Check with pairs: 0 where the netlist and each listed pair of its wires is clean; 1 for a leak on a wire, with its
/// numbers at the front of `leak`, and 2 more for a bad pair, with how many stand before it at the front of `bad`.
#[unsafe(no_mangle)]
pub extern "C" fn fidrovelj_check_pairs(
    text: &[u8],
    codes: &[u8],
    pairs: &[u32],
    leak: &mut [u64],
    bad: &mut [u64],
    operands: &mut [u64],
    results: &mut [u64],
    marks: &mut [u8],
    words: &mut [u64],
    base: &mut [u64],
    bases: &mut [u64],
    whole: u8,
) -> i64
    ensures { ToldBoth (Promise (sizes_of whole) text.now codes.now pairs.now operands.old
        operands.new results.old results.new marks.old marks.new words.old
        words.new base.old base.new bases.old bases.new)
        leak.old leak.new bad.old bad.new result }
{
    tell(
        leak,
        bad,
        check_pairs::check_pairs(
            text,
            codes,
            pairs,
            operands,
            results,
            marks,
            words,
            base,
            bases,
            sizes(whole),
        ),
    )
}
