//! The causes among the wires that leak: those given by a gate none of whose operands leaks.
ghost use Rattle.std.specs.Prelude.{◌≡◌, ℕ, ◌++◌, [], ◌∷◌, Bool, List, length};
ghost use Rattle.netlist.specs.declared.Gate.{Gate};
ghost use Rattle.gates.specs.Gates.{WiredGates, gates_in};
ghost use Rattle.gates.specs.Parts.{gate_by, Within};
ghost use Rattle.causes.specs.Causes.{operands_pass};
ghost use Rattle.causes.specs.Marked.{Tested, Told};

use gates::{Gates, Kind, Parts};

// Whether no operand of a gate is marked.
fn unmarked(marks: &[u8], gate: Parts) -> bool
    requires { Within (length marks.now) gate }
    ensures { (u : ℕ → Bool) (gs : List Gate) → Told u gs (length marks.now) marks.now
        → result ≡ operands_pass u (gate_by gate) }
{
    match Kind::of(gate.kind) {
        Kind::Xor | Kind::And => marks[gate.left] == 0 && marks[gate.right] == 0,
        Kind::Inv | Kind::Eqw => marks[gate.left] == 0,
        Kind::Eq(_) => true,
    }
}

// A gate's result is a cause where it is marked and no operand is.
fn step(marks: &mut [u8], gate: Parts)
    requires { Within (length marks.old) gate }
    ensures { (u : ℕ → Bool) (gs : List Gate) → Told u gs (length marks.old) marks.old
        → Told u (gs ++ (gate_by gate ∷ [])) (length marks.old) marks.new }
{
    if marks[gate.result] != 0 && unmarked(marks, gate) {
        marks[gate.result] = 2;
    }
}

/// Marks of the wires that leak become verdicts: 2 for the causes.
pub fn causes(gates: Gates, marks: &mut [u8])
    requires { WiredGates gates (length marks.old) }
    ensures { (u : ℕ → Bool) → Tested u (length marks.old) marks.old
        → Told u (gates_in gates.entry) (length marks.old) marks.new }
{
    for i in 0..gates.count {
        step(marks, gates.at(i));
    }
}
