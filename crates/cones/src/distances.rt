//! The distances of all wires to one, line by line, the last first.
ghost use Rattle.std.specs.Prelude.{◌≡◌, ℕ, ◌<◌, length};
ghost use Rattle.gates.specs.Gates.{WiredGates, gates_in};
ghost use Rattle.gates.specs.Parts.{gate_by, Within};
ghost use Rattle.cones.specs.Cone.{start, nearer, closer, spread, spread_gates};

use gates::{Gates, Kind, Parts};

// An operand's entry, by that of its gate's result.
fn nearer(depth: u16, near: u32, entry: u32) -> u32
    ensures { result ≡ nearer depth near entry }
{
    if near == 0 || u32::from(depth) < near {
        return entry;
    }
    if entry == 0 || near + 1 < entry {
        near + 1
    } else {
        entry
    }
}

// An operand's entry is brought nearer.
fn bring(out: &mut [u32], depth: u16, near: u32, operand: usize)
    requires { operand < length out.old }
    ensures { out.new ≡ closer depth near operand out.old }
{
    out[operand] = nearer(depth, near, out[operand]);
}

// The entries of a gate's operands.
fn step(out: &mut [u32], depth: u16, gate: Parts)
    requires { Within (length out.old) gate }
    ensures { out.new ≡ spread depth (gate_by gate) out.old }
{
    let near = out[gate.result];
    match Kind::of(gate.kind) {
        Kind::Xor | Kind::And => {
            bring(out, depth, near, gate.left);
            bring(out, depth, near, gate.right);
        }
        Kind::Inv | Kind::Eqw => bring(out, depth, near, gate.left),
        Kind::Eq(_) => {}
    }
}

/// The entries of all wires, which `out` has a place each for.
pub fn distances(gates: Gates, wire: usize, depth: u16, out: &mut [u32])
    requires { WiredGates gates (length out.old) × (wire < length out.old) }
    ensures { out.new ≡ spread_gates depth (start (length out.old) wire) (gates_in gates.entry) }
{
    out.fill(0);
    out[wire] = 1;
    for i in (0..gates.count).rev() {
        step(out, depth, gates.at(i));
    }
}
