//! Gates into two tables, as many as they have room for.
ghost use Rattle.netlist.specs.Table.{tables};
ghost use Rattle.from_aiger.specs.Places.{Keeping};

use gates::{Entry, put};
use netlist::Gate;

/// Puts a gate after the first `at`, where the tables have room.
pub fn keep(operands: &mut [u64], results: &mut [u64], at: usize, gate: Gate)
    ensures { Keeping (tables operands.old results.old) (tables operands.new results.new)
        at gate }
{
    if at < operands.len() && at < results.len() {
        put(operands, results, at, Entry::from(gate));
    }
}
