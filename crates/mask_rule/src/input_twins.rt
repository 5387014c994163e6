//! The twins of the inputs: a public bit stands on the wire of its gate, every other one on its own.
ghost use Rattle.std.specs.Prelude.{◌≡◌, ◌++◌, ◌+◌, ◌≤◌, ◌<◌, ◌^◌, length, drop};
ghost use Rattle.masking.specs.Mask.{input_twin, input_twins, past_public, past_publics};
ghost use Rattle.mask_rule.specs.State.{twins_of, Started};

use crate::codes::Next;
use netlist::Twin;

/// The next wire after an input.
pub fn past(next: Next, code: u8) -> u32
    ensures { result ≡ past_public next.wire code }
{
    if code == 0 { next.wire + 1 } else { next.wire }
}

// The twin of input w: where it is public the wire c of its gate, with code 1, and otherwise its own wire, with its
// code.
fn input(wire: u32, input: u32, code: u8) -> Twin
    ensures { result ≡ input_twin wire input code }
{
    if code == 0 {
        Twin {
            wire: wire,
            code: 1,
        }
    } else {
        Twin {
            wire: input,
            code: code,
        }
    }
}

// The twins of the inputs, with the public bits' gates at the wires from c, and the next wire; the other entries are
// kept.
fn inputs(wire: u32, codes: &[u8], twin_wires: &mut [u32], twin_codes: &mut [u8]) -> u32
    requires { (length twin_codes.old ≡ length twin_wires.old) × (length codes.now ≤ length twin_wires.old)
        × (wire + length codes.now < 2 ^ 31) }
    ensures { (result ≡ past_publics wire codes.now) ×
        (twins_of twin_wires.new twin_codes.new ≡ input_twins wire 0 codes.now ++ drop (length codes.now)
        (twins_of twin_wires.old twin_codes.old)) }
{
    let mut next = wire;
    for (i, e) in codes.iter().enumerate() {
        let t = input(next, i as u32, *e);
        crate::twin_tables::put(twin_wires, twin_codes, i, t);
        next = past(Next { wire: next }, *e);
    }
    next
}

/// The twins before the first source gate, those of the inputs alone, and the next wire.
pub fn start(wire: u32, codes: &[u8], twin_wires: &mut [u32], twin_codes: &mut [u8]) -> u32
    requires { (length twin_codes.old ≡ length twin_wires.old) × (length codes.now ≤ length twin_wires.old)
        × (wire + length codes.now < 2 ^ 31) }
    ensures { Started wire codes.now (length twin_wires.old) result twin_wires.new twin_codes.new }
{
    twin_wires.fill(0);
    twin_codes.fill(0);
    inputs(wire, codes, twin_wires, twin_codes)
}
