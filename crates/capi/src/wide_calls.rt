//! The check of netlists with many inputs for programs in C and Rust.
ghost use Rattle.check_wide.specs.Promise.{Promise};
ghost use Rattle.capi.specs.Number.{sizes_of};
ghost use Rattle.capi.specs.Wide.{ToldWide};

use crate::answers::sizes;
use crate::wide_answers::tell;

/// Check of netlists with many inputs: 0 where the netlist and each listed pair of its wires is clean; 1 for a leak on
/// a wire, with its numbers at the front of `leak` and the input bits that are one in its setting at the front of
/// `ones`, and 2 more for a bad pair, with how many stand before it at the front of `bad`.
#[unsafe(no_mangle)]
pub extern "C" fn fidrovelj_check_wide(
    text: &[u8],
    codes: &[u8],
    pairs: &[u32],
    leak: &mut [u64],
    ones: &mut [u64],
    bad: &mut [u64],
    operands: &mut [u64],
    results: &mut [u64],
    marks: &mut [u8],
    words: &mut [u64],
    base: &mut [u64],
    bases: &mut [u64],
    set0: &mut [u64],
    set1: &mut [u64],
    set2: &mut [u64],
    set3: &mut [u64],
    paints: &mut [u8],
    whole: u8,
) -> i64
    ensures { ToldWide (Promise (sizes_of whole) text.now codes.now pairs.now operands.old
        operands.new results.old results.new marks.old marks.new words.old
        words.new base.old base.new bases.old bases.new set0.old set0.new
        set1.old set1.new set2.old set2.new set3.old set3.new
        paints.old paints.new)
        leak.old leak.new ones.old ones.new bad.old bad.new result }
{
    tell(
        leak,
        ones,
        bad,
        check_wide::check_wide(
            text,
            codes,
            pairs,
            operands,
            results,
            marks,
            words,
            base,
            bases,
            set0,
            set1,
            set2,
            set3,
            paints,
            sizes(whole),
        ),
    )
}
