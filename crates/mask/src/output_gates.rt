//! The gates of the output bits, and their codes. The output bits are the last source wires.
ghost use Rattle.std.specs.Prelude.{◌≡◌, ◌+◌, ◌<◌, ◌^◌, [], ◌∷◌, length};
ghost use Rattle.masking.specs.Mask.{out_gate, out_gates, out_code};
ghost use Rattle.writer.specs.Wrote.{Wrote};
ghost use Rattle.writer.specs.WrittenGates.{WroteGates};
ghost use Rattle.mask_rule.specs.State.{twins_of};
ghost use Rattle.mask.specs.State.{codes_of};

use mask_rule::codes::{Masks, third_code};
use netlist::Twin;
use writer::word_table::Words;

// One output bit's gate, at wire c.
fn one(
    words: Words,
    out: &mut [u8],
    at: usize,
    masks: Masks,
    wire: u32,
    twin: Twin,
    want: u8,
) -> usize
    ensures { WroteGates out.old at (out_gate masks.first wire twin want ∷ []) out.new result }
{
    if want == 0 || want == twin.code {
        return writer::gate_lines::eqw(words, out, at, twin.wire, wire);
    }
    let f = third_code(twin.code, want);
    let m = masks.wire(f);
    writer::gate_lines::xor(words, out, at, twin.wire, m, wire)
}

/// The gates of the output bits with the twins of these two tables, at the wires from c.
pub fn outs(
    words: Words,
    out: &mut [u8],
    at: usize,
    masks: Masks,
    wire: u32,
    twin_wires: &[u32],
    twin_codes: &[u8],
    wanted: &[u8],
) -> usize
    requires c_bound { wire + length wanted.now < 2 ^ 31 }
    requires as_many { (length twin_wires.now ≡ length wanted.now) × (length twin_codes.now ≡ length twin_wires.now) }
    ensures { WroteGates out.old at (out_gates masks.first wire (twins_of twin_wires.now twin_codes.now) wanted.now)
        out.new result }
{
    let mut place = at;
    for (i, want) in wanted.iter().enumerate() {
        let t = mask_rule::twin_tables::twin(twin_wires, twin_codes, i);
        place = one(words, out, place, masks, wire + i as u32, t, *want);
    }
    place
}

// An output bit's code: the wanted one, or where 0 is wanted the one that it has.
fn pick(code: u8, want: u8) -> u8
    ensures { result ≡ out_code code want }
{
    if want == 0 { code } else { want }
}

/// The output codes, where the twins of the output bits have these codes.
pub fn codes(twin_codes: &[u8], wanted: &[u8], res: &mut [u8])
    requires { length twin_codes.now ≡ length wanted.now }
    ensures { Wrote res.old 0 (codes_of twin_codes.now wanted.now) res.new (length wanted.now) }
{
    for (i, want) in wanted.iter().enumerate() {
        writer::put(res, i, pick(twin_codes[i], *want));
    }
}
