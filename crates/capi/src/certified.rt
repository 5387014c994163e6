//! The certifier for programs in C and Rust.
ghost use Rattle.certify.specs.Promise.{Promise};
ghost use Rattle.capi.specs.Number.{sizes_of};
ghost use Rattle.capi.specs.Certified.{ToldCertified};

use crate::answers::sizes;
use crate::certified_answer::number_of;

/// Certify: 0 where every wire is clean; 1 for a leak, with its numbers at the front of `leak` and the input bits that
/// are one in its setting at the front of `ones`; 2 with the lowest wire not known to be clean at the front of `leak`.
#[unsafe(no_mangle)]
pub extern "C" fn fidrovelj_certify(
    text: &[u8],
    codes: &[u8],
    leak: &mut [u64],
    ones: &mut [u64],
    operands: &mut [u64],
    results: &mut [u64],
    marks: &mut [u8],
    words: &mut [u64],
    base: &mut [u64],
    records: &mut [u64],
    whole: u8,
) -> i64
    ensures { ToldCertified (Promise (sizes_of whole) text.now codes.now leak.old leak.new
        ones.old ones.new operands.old operands.new results.old results.new
        marks.old marks.new words.old words.new base.old base.new
        records.old records.new) result }
{
    number_of(certify::certify(
        text,
        codes,
        leak,
        ones,
        operands,
        results,
        marks,
        words,
        base,
        records,
        sizes(whole),
    ))
}
