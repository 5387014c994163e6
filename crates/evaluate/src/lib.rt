//! The evaluator of netlists whose gates lie in tables. A wire's value is a word, whose bit j (its
//! lane j) belongs to setting j: one pass over the gates is sixty-four runs.
#![tactic(auto)]

pub mod gate;
pub mod lay;
pub mod single;
pub mod wide;

ghost use Rattle.std.specs.Prelude.{◌≡◌, ℕ, ◌≤◌, ◌<◌, length, take};
ghost use Rattle.netlist.specs.Eval.{run_gates, wire_bits};
ghost use Rattle.gates.specs.Gates.{WiredGates, gates_in};
ghost use Rattle.evaluate.specs.Lane.{lanes};
ghost use Rattle.evaluate.specs.Bare.{bare_of};

use gates::Gates;

// Runs the gates on the wires' words, each lane for itself. A gate's entries are taken apart a turn before its step: so
// it is compiled to fewer instructions.
fn run(gates: Gates, words: &mut [u64])
    requires { WiredGates gates (length words.old) }
    ensures { (j : ℕ) → j < 64 → lanes j words.new ≡ run_gates (lanes j words.old) (gates_in gates.entry) }
{
    if gates.count == 0 {
        return;
    }
    let mut next = gates.at(0);
    for i in 1..gates.count {
        gate::step(words, next);
        next = gates.at(i);
    }
    gate::step(words, next);
}

/// The words of all wires, from those of the input wires, which are the first; what the others held
/// before does not matter.
pub fn wires(gates: Gates, ins: usize, words: &mut [u64])
    requires wired { WiredGates gates (length words.old) }
    requires ins_in_bounds { ins ≤ length words.old }
    ensures { (j : ℕ) → j < 64 → lanes j words.new
        ≡ wire_bits (bare_of gates.entry (length words.old))
        (lanes j (take ins words.old)) }
{
    words[ins..].fill(0);
    run(gates, words);
}
