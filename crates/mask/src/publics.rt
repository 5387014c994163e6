//! The gates of the public bits: each such input XOR m0, in input order. All others arrive masked and have none.
ghost use Rattle.std.specs.Prelude.{◌+◌, ◌<◌, ◌^◌, length};
ghost use Rattle.masking.specs.Mask.{public_gate, public_gates};
ghost use Rattle.writer.specs.WrittenGates.{WroteGates};

use mask_rule::codes::Next;
use writer::word_table::Words;

// The gate of input w, where it is public, at wire c.
fn one(
    words: Words,
    out: &mut [u8],
    at: usize,
    masks: u32,
    wire: u32,
    input: u32,
    code: u8,
) -> usize
    ensures { WroteGates out.old at (public_gate masks wire input code) out.new result }
{
    if code == 0 {
        writer::gate_lines::xor(words, out, at, input, masks, wire)
    } else {
        at
    }
}

/// The gates of all inputs, at the wires from c.
pub fn publics(
    words: Words,
    out: &mut [u8],
    at: usize,
    masks: u32,
    wire: u32,
    codes: &[u8],
) -> usize
    requires codes_bound { wire + length codes.now < 2 ^ 31 }
    ensures { WroteGates out.old at (public_gates masks wire 0 codes.now) out.new result }
{
    let mut place = at;
    let mut next = wire;
    for (i, e) in codes.iter().enumerate() {
        place = one(words, out, place, masks, next, i as u32, *e);
        next = mask_rule::input_twins::past(Next { wire: next }, *e);
    }
    place
}
