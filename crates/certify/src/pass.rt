//! The pass over all gates, and the lowest wire that it does not show to be clean.
ghost use Rattle.std.specs.Prelude.{◌≡◌, true, false, List, ℕ, ◌+◌, ◌*◌, ◌<◌, ◌≤◌, length, get_or, IfSome, None};
ghost use Rattle.netlist.specs.Netlist.{Netlist};
ghost use Rattle.gates.specs.Gates.{WiredGates, HoldsGates, gates_in};
ghost use Rattle.masking.specs.Leak.{EqualCounts};
ghost use Rattle.evaluate.specs.Lane.{lane};
ghost use Rattle.certify.specs.Pass.{Holding, Masked, sure, LowestUnmarked, Masking, most_wires};
ghost use Rattle.certify.specs.Step.{state, run_of, passed};

use crate::{gate, inputs};
use gates::Gates;

// Takes the gates in order.
fn run(gates: Gates, records: &mut [u64], marks: &mut [u8], hints: &mut [u64])
    requires { WiredGates gates (length marks.old) × (15 * length marks.old ≤ length records.old) }
    ensures says { (n o : ℕ) (N : Netlist) (codes : List ℕ) → HoldsGates gates.entry (length marks.old) n o N
        → Masked N codes → Holding N codes records.old marks.old
        → Holding N codes records.new marks.new }
    ensures is { state records.new marks.new hints.new ≡ run_of (state records.old marks.old hints.old)
        (gates_in gates.entry) }
{
    for i in 0..gates.count {
        let gate = gate::plain(gates.at(i));
        gate::step(records, marks, hints, gate);
    }
}

// The lowest wire that is not marked clean.
fn lowest(marks: &[u8]) -> Option<usize>
    ensures bound { IfSome result (λ w. (w < length marks.now) × (lane 0 (get_or marks.now w 0) ≡ false)) }
    ensures lower { (w : ℕ) → w < sure (length marks.now) result → lane 0 (get_or marks.now w 0) ≡ true }
{
    (0..marks.len()).find(|w| marks[*w] & 1 == 0)
}

/// The lowest wire that is not known to be clean. The records, fifteen entries for each wire, and the marks, one for
/// each, are working store, and so are the hints, of which any number will do.
pub fn certified(
    codes: &[u8],
    gates: Gates,
    records: &mut [u64],
    marks: &mut [u8],
    hints: &mut [u64],
) -> Option<usize>
    requires { WiredGates gates (length marks.old) × (length records.old ≡ 15 * length marks.old)
        × (length codes.now + 2 ≤ length marks.old) }
    ensures bound { IfSome result (λ w. w < length marks.old) }
    ensures lower { (n o : ℕ) (N : Netlist) → HoldsGates gates.entry (length marks.old) n o N → Masked N codes.now
        → (w : ℕ) → w < sure (length marks.old) result → EqualCounts N codes.now w }
    ensures is { (n o : ℕ) (N : Netlist) → HoldsGates gates.entry (length marks.old) n o N
        → LowestUnmarked (passed N.wires (length hints.old) codes.now N.gates).marks N.wires result }
    ensures masking { (n o : ℕ) (N : Netlist) (out_codes : List ℕ) → HoldsGates gates.entry (length marks.old) n o N
        → Masking N codes.now out_codes → N.wires ≤ most_wires → result ≡ None }
{
    records.fill(0);
    marks.fill(0);
    hints.fill(0);
    inputs::inputs(codes, records, marks);
    run(gates, records, marks, hints);
    lowest(marks)
}
