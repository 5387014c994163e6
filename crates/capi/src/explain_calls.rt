//! What a leak is made of, for programs in C and Rust: which wires leak and which are causes, the polynomial of a wire,
//! its counts and a witness, and its cone.
ghost use Rattle.capi.specs.Number.{sizes_of, Told};
ghost use Rattle.causes.specs.Promise.{Promise as WiresPromise};
ghost use Rattle.cones.specs.Promise.{Promise as ConePromise};
ghost use Rattle.explain.specs.CountsPromise.{Promise as CountsPromise};
ghost use Rattle.explain.specs.PolynomialPromise.{Promise as PolynomialPromise};

use crate::answers::{number, sizes};

/// A verdict on each wire at the front of `out`, 0 for equal counts, 1 for a leak, 2 for a leak that is a cause: how
/// many wires there are.
#[unsafe(no_mangle)]
pub extern "C" fn fidrovelj_explain_wires(
    text: &[u8],
    codes: &[u8],
    out: &mut [u8],
    operands: &mut [u64],
    results: &mut [u64],
    marks: &mut [u8],
    words: &mut [u64],
    base: &mut [u64],
    whole: u8,
) -> i64
    ensures { Told (WiresPromise (sizes_of whole) text.now codes.now out.old out.new
        operands.old operands.new results.old results.new marks.old marks.new
        words.old words.new base.old base.new) result }
{
    number(causes::wires(
        text,
        codes,
        out,
        operands,
        results,
        marks,
        words,
        base,
        sizes(whole),
    ))
}

/// The coefficients of a wire's polynomial at the front of `out`: how many there are.
#[unsafe(no_mangle)]
pub extern "C" fn fidrovelj_polynomial(
    text: &[u8],
    codes: &[u8],
    wire: usize,
    out: &mut [u8],
    operands: &mut [u64],
    results: &mut [u64],
    marks: &mut [u8],
    words: &mut [u64],
    whole: u8,
) -> i64
    ensures { Told (PolynomialPromise (sizes_of whole) text.now codes.now wire out.old out.new
        operands.old operands.new results.old results.new marks.old marks.new
        words.old words.new) result }
{
    number(explain::polynomial::polynomial(
        text,
        codes,
        wire,
        out,
        operands,
        results,
        marks,
        words,
        sizes(whole),
    ))
}

/// How many settings have the counts 0 to 4 on a wire at the front of `out`, then a least witness with its base's count
/// and its own where the wire leaks: how many numbers there are, 5 or 8.
#[unsafe(no_mangle)]
pub extern "C" fn fidrovelj_counts(
    text: &[u8],
    codes: &[u8],
    wire: usize,
    out: &mut [u64],
    operands: &mut [u64],
    results: &mut [u64],
    bits: &mut [u8],
    words: &mut [u64],
    bases: &mut [u8],
    whole: u8,
) -> i64
    ensures { Told (CountsPromise (sizes_of whole) text.now codes.now wire out.old out.new
        operands.old operands.new results.old results.new bits.old bits.new
        words.old words.new bases.old bases.new) result }
{
    number(explain::counts::counts(
        text,
        codes,
        wire,
        out,
        operands,
        results,
        bits,
        words,
        bases,
        sizes(whole),
    ))
}

/// The cone of a wire at the front of `out`, an entry for each wire: one more than its distance, which is how many gates
/// stand between, or 0 where it does not reach the wire within so many gates: how many wires there are.
#[unsafe(no_mangle)]
pub extern "C" fn fidrovelj_cone(
    text: &[u8],
    wire: usize,
    depth: u16,
    out: &mut [u32],
    operands: &mut [u64],
    results: &mut [u64],
    marks: &mut [u8],
    whole: u8,
) -> i64
    ensures { Told (ConePromise (sizes_of whole) text.now wire depth out.old out.new
        operands.old operands.new results.old results.new marks.old marks.new) result }
{
    number(cones::cone(
        text,
        wire,
        depth,
        out,
        operands,
        results,
        marks,
        sizes(whole),
    ))
}
