//! The gates of operands, of AND lines and of outputs, after n input bits and `count` gates.
ghost use Rattle.std.specs.Prelude.{◌+◌, ◌/◌, ◌^◌, ◌<◌, ◌≤◌, get_or};
ghost use Rattle.netlist.specs.Table.{tables};
ghost use Rattle.from_aiger.specs.Places.{OperandIs, AndIs, OutIs};

use crate::keep::keep;
use gates::entries::entry;
use netlist::Gate;

/// The wire that carries an operand, and how many gates there are with its own. How far both go stands in the
/// contracts: a bound of a plain number is shorter there than a type for it.
#[derive(Clone, Copy)]
pub struct Carried {
    pub wire: u32,
    pub count: usize,
}

/// An operand: a variable's own wire, and otherwise a gate as for an output: an EQ for a constant, an INV for an
/// inverse.
pub fn operand(
    table: &[u32],
    operands: &mut [u64],
    results: &mut [u64],
    literal: u32,
    inputs: u32,
    count: usize,
) -> Carried
    requires { (inputs + count + 1 < 2 ^ 32) × (2 ≤ literal → 1 ≤ get_or table.now (literal / 2) 0) }
    ensures { OperandIs table.now (tables operands.old results.old)
        (tables operands.new results.new) inputs count literal result.wire result.count × (result.count ≤ count + 1) }
{
    if 2 <= literal && literal % 2 == 0 {
        return Carried {
            wire: entry(table, (literal / 2) as usize) - 1,
            count,
        };
    }
    out_gate(table, operands, results, literal, inputs, count);
    Carried {
        wire: inputs + count as u32,
        count: count + 1,
    }
}

/// The gates of an AND line, the left operand's first, and the wire of the last.
pub fn and_gates(
    table: &[u32],
    operands: &mut [u64],
    results: &mut [u64],
    first: u32,
    second: u32,
    inputs: u32,
    count: usize,
) -> Carried
    requires { (inputs + count + 3 < 2 ^ 32) × (2 ≤ first → 1 ≤ get_or table.now (first / 2) 0)
        × (2 ≤ second → 1 ≤ get_or table.now (second / 2) 0) }
    ensures { AndIs table.now (tables operands.old results.old)
        (tables operands.new results.new) inputs count first second result.wire result.count
        × (result.count ≤ count + 3)
        × (result.wire ≤ inputs + count + 2) }
{
    let l = operand(table, operands, results, first, inputs, count);
    let left = l.wire;
    let r = operand(table, operands, results, second, inputs, l.count);
    let right = r.wire;
    let following = r.count;
    let c = inputs + following as u32;
    keep(operands, results, following, Gate::And(left, right, c));
    Carried {
        wire: c,
        count: following + 1,
    }
}

/// An output: an EQW, an INV or an EQ.
pub fn out_gate(
    table: &[u32],
    operands: &mut [u64],
    results: &mut [u64],
    literal: u32,
    inputs: u32,
    count: usize,
)
    requires { (inputs + count + 1 < 2 ^ 32) × (2 ≤ literal → 1 ≤ get_or table.now (literal / 2) 0) }
    ensures { OutIs table.now (tables operands.old results.old)
        (tables operands.new results.new) inputs count literal }
{
    let c = inputs + count as u32;
    if literal < 2 {
        keep(operands, results, count, Gate::Eq(literal, c));
        return;
    }
    let w = entry(table, (literal / 2) as usize) - 1;
    if literal % 2 == 0 {
        keep(operands, results, count, Gate::Eqw(w, c));
    } else {
        keep(operands, results, count, Gate::Inv(w, c));
    }
}
