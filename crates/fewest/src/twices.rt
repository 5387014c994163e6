//! The gates of two operands that name one wire twice.
ghost use Rattle.std.specs.Prelude.{◌≡◌, ◌≤◌, ◌<◌, ◌^◌, length};
ghost use Rattle.gates.specs.Gates.{gates_in};
ghost use Rattle.gates.specs.Parts.{gate_by};
ghost use Rattle.netlist.specs.Eval.{bit};
ghost use Rattle.fewest.specs.Fewest.{twice as gate_twice, twices as gates_twice};

use gates::{Gates, Kind, Parts};

// Whether a gate does.
fn twice(gate: Parts) -> u32
    ensures { result ≡ bit (gate_twice (gate_by gate)) }
{
    match Kind::of(gate.kind) {
        Kind::Xor | Kind::And => (gate.left == gate.right) as u32,
        _ => 0,
    }
}

/// How many of the gates do. Summed in a loop: with `sum` over the places the proof didn't close, neither of its bound
/// nor of its value.
pub fn twices(gates: Gates) -> u32
    requires { (gates.count ≤ length gates.operands.now) × (gates.count ≤ length gates.results.now)
        × (gates.count < 2 ^ 32) }
    ensures { result ≡ gates_twice (gates_in gates.entry) }
{
    let mut sum = 0;
    for i in 0..gates.count {
        sum += twice(gates.at(i));
    }
    sum
}
