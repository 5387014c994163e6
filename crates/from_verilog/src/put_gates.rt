//! Gates into lent tables, where they fit.
ghost use Rattle.std.specs.Prelude.{◌≡◌, ◌≤◌};
ghost use Rattle.netlist.specs.Table.{tables};
ghost use Rattle.gates.specs.Kind.{number};
ghost use Rattle.from_verilog.specs.Puts.{packed};

use gates::{Kind, pack};

/// Stores a gate by its kind: the gate that gives wire n is the first.
pub fn put(
    operands: &mut [u64],
    results: &mut [u64],
    inputs: u32,
    kind: Kind,
    first: u32,
    second: u32,
    wire: u32,
)
    requires { inputs ≤ wire }
    ensures { tables operands.new results.new
        ≡ packed inputs (tables operands.old results.old) (number kind) first second wire }
{
    let at = (wire - inputs) as usize;
    let e = pack(kind, first, second, wire);
    gates::entries::put(operands, at, e.operands);
    gates::entries::put(results, at, e.results);
}
