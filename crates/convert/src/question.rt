//! Question 15: whether a netlist has a form in a dialect.
ghost use Rattle.std.specs.Prelude.{◌≤◌, ◌≡◌, length};
ghost use Rattle.netlist.specs.Lists.{every};
ghost use Rattle.gates.specs.Gates.{gates_in};
ghost use Rattle.convert.specs.Convert.{old_entry, has_form};

use dialect::Dialect;
use gates::halves::unpack;
use gates::{Gates, Kind};

// Whether an entry is that of XOR, AND or INV.
fn is_old_entry(res: u64) -> bool
    ensures { result ≡ old_entry res }
{
    let (_, kind) = unpack(res);
    Kind::of(kind as usize).is_old()
}

// Whether all entries are.
fn old_entries(results: &[u64]) -> bool
    ensures { result ≡ every old_entry results.now }
{
    results.iter().all(|r| is_old_entry(*r))
}

/// The question as a dialect puts it, of gates and so many values. In the older dialect there is no EQ or EQW, and
/// there are at most two input values and at most one output value.
pub fn has_form(gates: Gates, inputs: usize, outputs: usize, to: Dialect) -> bool
    requires { gates.count ≤ length gates.results.now }
    ensures { result ≡ has_form to (gates_in gates.entry) inputs outputs }
{
    match to {
        Dialect::Fashion => true,
        Dialect::Old => inputs <= 2 && outputs <= 1 && old_entries(&gates.results[..gates.count]),
    }
}
