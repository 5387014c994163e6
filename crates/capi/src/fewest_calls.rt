//! Mask with fewer changes for programs in C and Rust.
ghost use Rattle.mask_fewest.specs.Promise.{Promise};
ghost use Rattle.capi.specs.Number.{sizes_of, Told};

use crate::answers::{number, sizes};

/// Mask with fewer changes: how many bytes the masked text has at the front of `out`; its input codes stand at the
/// front of `in_codes`, its output codes at the front of `out_codes`, its changes and the floor at the front of
/// `tally`.
#[unsafe(no_mangle)]
pub extern "C" fn fidrovelj_mask_fewest(
    text: &[u8],
    codes: &[u8],
    wanted: &[u8],
    budget: u64,
    out: &mut [u8],
    in_codes: &mut [u8],
    out_codes: &mut [u8],
    tally: &mut [u64],
    operands: &mut [u64],
    results: &mut [u64],
    wires: &mut [u32],
    marks: &mut [u8],
    ways: &mut [u8],
    best: &mut [u8],
    spans: &mut [u64],
    whole: u8,
) -> i64
    ensures { Told (Promise (sizes_of whole) text.now codes.now wanted.now budget out.old
        out.new in_codes.old in_codes.new out_codes.old out_codes.new tally.old
        tally.new operands.old operands.new results.old results.new
        wires.old wires.new marks.old marks.new ways.old ways.new
        best.old best.new spans.old spans.new) result }
{
    number(mask_fewest::mask_fewest(
        text,
        codes,
        wanted,
        budget,
        out,
        in_codes,
        out_codes,
        tally,
        operands,
        results,
        wires,
        marks,
        ways,
        best,
        spans,
        sizes(whole),
    ))
}
