//! The twins of all source wires, placed without their gates.
ghost use Rattle.std.specs.Prelude.{◌≡◌, [], ◌+◌, ◌*◌, ◌<◌, ◌^◌, length};
ghost use Rattle.gates.specs.Parts.{gate_by, Within};
ghost use Rattle.gates.specs.Gates.{tables_of, WiredGates};
ghost use Rattle.mask_rule.specs.State.{state_of, Advanced, AdvancedAll};
ghost use Rattle.mask_rule.specs.Place.{Ready, Finished};

use crate::codes::Next;
use gates::{Gates, Kind, Parts};

// A source gate of these parts: its result's twin, and the next wire.
fn step(next: Next, gate: Parts, twin_wires: &mut [u32], twin_codes: &mut [u8]) -> u32
    requires { Within (length twin_wires.old) gate × (length twin_codes.old ≡ length twin_wires.old) }
    ensures { Advanced (state_of next.wire twin_wires.old twin_codes.old) (gate_by gate)
        (state_of result twin_wires.new twin_codes.new) }
{
    let place = gate.result;
    let a = crate::twin_tables::twin(twin_wires, twin_codes, gate.left);
    let b = crate::twin_tables::twin(twin_wires, twin_codes, gate.right);
    let t = crate::twin(next, Kind::of(gate.kind), a, b);
    crate::twin_tables::put(twin_wires, twin_codes, place, t);
    t.wire + 1
}

// The twins of the gates' results, in order, and the next wire.
fn place_results(wire: u32, gates: Gates, twin_wires: &mut [u32], twin_codes: &mut [u8]) -> u32
    requires count_bound { wire + 8 * gates.count < 2 ^ 31 }
    requires wired { WiredGates gates (length twin_wires.old) × (length twin_codes.old ≡ length twin_wires.old) }
    ensures { AdvancedAll (state_of wire twin_wires.old twin_codes.old) (tables_of gates.entry) gates.entry.count
        (state_of result twin_wires.new twin_codes.new) }
{
    let mut next = wire;
    for i in 0..gates.count {
        next = step(Next { wire: next }, gates.at(i), twin_wires, twin_codes);
    }
    next
}

/// The twins of all source wires into the two tables, which have an entry for each and may hold anything, and the next
/// wire after the gates.
pub fn place_twins(gates: Gates, codes: &[u8], twin_wires: &mut [u32], twin_codes: &mut [u8]) -> u32
    requires { Ready (tables_of gates) gates.count codes.now [] twin_wires.old twin_codes.old }
    ensures { Finished (tables_of gates.entry) gates.entry.count codes.now
        (length twin_wires.old) result twin_wires.new twin_codes.new }
{
    let n = codes.len() as u32;
    // The gates of the public bits stand after the inputs, the mask pair and the three gates of the masks.
    let first = crate::input_twins::start(n + 5, codes, twin_wires, twin_codes);
    place_results(first, gates, twin_wires, twin_codes)
}
