//! The gates from one on, under the choice that a list of their ways says: the codes of their results, and how many
//! changes there are at least before each.
ghost use Rattle.std.specs.Prelude.{◌≡◌, ◌+◌, ◌≤◌, ◌<◌, ◌^◌, length, get_or};
ghost use Rattle.gates.specs.Gates.{WiredGates, tables_of};
ghost use Rattle.gates.specs.Parts.{gate_by, Within};
ghost use Rattle.fewest.specs.Codes.{second_code};
ghost use Rattle.fewest.specs.Walk.{code_by, added_by, Stepped, Walked};

use gates::{Gates, Kind, Parts};
use mask_rule::codes::{code_after, third_code};

// The second operand's wire_codes after the mask change, if there is one.
fn second(first: u8, second: u8) -> u8
    ensures { result ≡ second_code first second }
{
    if first == second {
        return third_code(second, code_after(second));
    }
    second
}

// The wire_codes of a gate's result, by its kind, its way and its operands' codes.
fn result_code(kind: Kind, way: u8, first_code: u8, second_code: u8) -> u8
    ensures { result ≡ code_by kind way first_code second_code }
{
    match kind {
        Kind::Xor => third_code(first_code, second(first_code, second_code)),
        Kind::And if way == 1 => second_code,
        Kind::And | Kind::Inv | Kind::Eqw => first_code,
        Kind::Eq(_) => 1,
    }
}

// The change of a gate with operands a and b, of codes e and f; one that names one wire twice is counted beforehand.
fn added(kind: Kind, first: usize, second: usize, first_code: u8, second_code: u8) -> u32
    ensures { result ≡ added_by kind first second first_code second_code }
{
    match kind {
        Kind::Xor | Kind::And if first != second => (first_code == second_code) as u32,
        _ => 0,
    }
}

// One gate.
fn step(wire_codes: &mut [u8], way: u8, gate: Parts) -> u32
    requires { Within (length wire_codes.old) gate }
    ensures { Stepped wire_codes.old way (gate_by gate) wire_codes.new result }
{
    let kind = Kind::of(gate.kind);
    let e = wire_codes[gate.left];
    let f = wire_codes[gate.right];
    wire_codes[gate.result] = result_code(kind, way, e, f);
    added(kind, gate.left, gate.right, e, f)
}

/// The gates from one on, each in its way, until there are as many changes as `bound`: how many are done. `wire_codes`
/// has the codes of the wires given before the first, `least_before` the least changes before it.
pub fn walk_gates(
    gates: Gates,
    ways: &[u8],
    wire_codes: &mut [u8],
    least_before: &mut [u32],
    from: usize,
    bound: u32,
) -> usize
    requires wired { WiredGates gates (length wire_codes.old) }
    requires count_in_bounds { (gates.count ≤ length ways.now)
        × (gates.count < length least_before.old)
        × (from ≤ gates.count)
        × (get_or least_before.old from 0 + gates.count < 2 ^ 32) }
    ensures { Walked (tables_of gates.entry) gates.entry.count ways.now from bound wire_codes.old
        least_before.old wire_codes.new least_before.new result }
{
    let mut low = least_before[from];
    for i in from..gates.count {
        low += step(wire_codes, ways[i], gates.at(i));
        least_before[i + 1] = low;
        if bound <= low {
            return i + 1;
        }
    }
    gates.count
}
