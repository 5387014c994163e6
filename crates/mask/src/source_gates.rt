//! The masked gates of all source gates, in the order of their lines.
ghost use Rattle.std.specs.Prelude.{◌≡◌, ◌+◌, ◌*◌, ◌<◌, ◌^◌, length};
ghost use Rattle.gates.specs.Parts.{gate_by, Within};
ghost use Rattle.gates.specs.Gates.{tables_of, WiredGates};
ghost use Rattle.mask_rule.specs.State.{state_of};
ghost use Rattle.mask.specs.State.{WroteStep, WroteAll};

use gates::{Gates, Kind, Parts};
use mask_rule::codes::{Masks, Next};
use writer::word_table::Words;

// A source gate of these parts, at the wires from c: the next place, and the next wire. Its result's twin is the one
// that changes.
fn step(
    words: Words,
    out: &mut [u8],
    at: usize,
    masks: Masks,
    next: Next,
    gate: Parts,
    twin_wires: &mut [u32],
    twin_codes: &mut [u8],
) -> (usize, u32)
    requires { Within (length twin_wires.old) gate × (length twin_codes.old ≡ length twin_wires.old) }
    ensures { WroteStep out.old at masks.first (state_of next.wire twin_wires.old twin_codes.old) (gate_by gate)
        out.new result (state_of result.1 twin_wires.new twin_codes.new) }
{
    let result = gate.result;
    let a = mask_rule::twin_tables::twin(twin_wires, twin_codes, gate.left);
    let b = mask_rule::twin_tables::twin(twin_wires, twin_codes, gate.right);
    let (end, t) = crate::gate_lines::emit(words, out, at, masks, next, Kind::of(gate.kind), a, b);
    mask_rule::twin_tables::put(twin_wires, twin_codes, result, t);
    (end, t.wire + 1)
}

/// All the gates, at the wires from c: the next place, and the next wire.
pub fn write_all(
    words: Words,
    out: &mut [u8],
    at: usize,
    masks: Masks,
    wire: u32,
    gates: Gates,
    twin_wires: &mut [u32],
    twin_codes: &mut [u8],
) -> (usize, u32)
    requires c_bound { wire + 8 * gates.count < 2 ^ 31 }
    requires wired { WiredGates gates (length twin_wires.old) × (length twin_codes.old ≡ length twin_wires.old) }
    ensures { WroteAll out.old at masks.first (state_of wire twin_wires.old twin_codes.old)
        (tables_of gates.entry) gates.entry.count out.new result
        (state_of result.1 twin_wires.new twin_codes.new) }
{
    let mut place = at;
    let mut next = wire;
    for i in 0..gates.count {
        let from = Next { wire: next };
        (place, next) = step(
            words,
            out,
            place,
            masks,
            from,
            gates.at(i),
            twin_wires,
            twin_codes,
        );
    }
    (place, next)
}
