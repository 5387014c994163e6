//! Whether gates compute a table: each gate's table is made from those of its operands.

ghost use Rattle.std.specs.Prelude.{◌≡◌, ◌<◌, ℕ, Bool, IfSome, IfOk, OnOk, IsTrue, length};
ghost use Rattle.netlist.specs.Netlist.{result as result_of};
ghost use Rattle.netlist.specs.Eval.{made};
ghost use Rattle.cells.specs.Tables.{table_bit};
ghost use Rattle.cells.specs.Computes.{Satisfies, Holds, AreSet, Computes, input_tables};
ghost use Rattle.cells.specs.Verify.{Right, AllRight};

use crate::table::{INPUTS, constant, inverse, product, sum};
use netlist::Gate;
use std::alloc::AllocError;

/// A wire whose table over the inputs of the cell at hand is known.
#[derive(Clone, Copy, Debug)]
pub struct Known {
    pub table: u64,
    pub wire: u32,
}

/// The table of a wire that is known.
fn table_of(known: &[Known], wire: u32) -> Option<u64>
    ensures { IfSome result (λ table. (u : ℕ → Bool) (j : ℕ) → AllRight u j known.now
        → u wire ≡ table_bit table j) }
{
    for entry in known {
        if entry.wire == wire {
            return Some(entry.table);
        }
    }
    None
}

/// The wire that a gate gives.
fn result_wire(gate: Gate) -> u32
    ensures { result ≡ result_of gate }
{
    match gate {
        Gate::Xor(_, _, wire) => wire,
        Gate::And(_, _, wire) => wire,
        Gate::Inv(_, wire) => wire,
        Gate::Eqw(_, wire) => wire,
        Gate::Eq(_, wire) => wire,
    }
}

/// The table of what a gate makes of wires that are known.
fn gate_table(known: &[Known], gate: Gate) -> Option<u64>
    ensures { IfSome result (λ table. (u : ℕ → Bool) (j : ℕ) → j < 64 → AllRight u j known.now → made u gate ≡ table_bit table j) }
{
    match gate {
        Gate::Xor(left, right, _) => Some(sum(table_of(known, left)?, table_of(known, right)?)),
        Gate::And(left, right, _) => Some(product(table_of(known, left)?, table_of(known, right)?)),
        Gate::Inv(source, _) => Some(inverse(table_of(known, source)?)),
        Gate::Eqw(source, _) => Some(table_of(known, source)?),
        Gate::Eq(value, _) => Some(constant(value)),
    }
}

/// Makes known the tables of the wires of gates. Whether each gate's operands are known before it.
fn follow(known: &mut Vec<Known>, gates: &[Gate]) -> Result<bool, AllocError>
    ensures { IfOk result (λ yes. IsTrue yes → (u : ℕ → Bool) (j : ℕ) → j < 64 → Holds u gates.now
        → AllRight u j known.old.items → AllRight u j known.new.items) }
{
    for gate in gates {
        let Some(table) = gate_table(known, *gate) else {
            return Ok(false);
        };
        known.push(Known {
            table,
            wire: result_wire(*gate),
        })?;
    }
    Ok(true)
}

/// Makes known the tables of the wires of inputs, and of no other.
fn begin(known: &mut Vec<Known>, inputs: &[u32]) -> Result<(), AllocError>
    ensures { OnOk result ((u : ℕ → Bool) (j : ℕ) → AreSet u j inputs.now → AllRight u j known.new.items) }
{
    known.clear();
    for (place, wire) in inputs.iter().enumerate() {
        if place < 6 {
            known.push(Known {
                table: INPUTS[place],
                wire: *wire,
            })?;
        }
    }
    Ok(())
}

/// Whether these gates give a wire this table over the wires of inputs. The list is working store.
pub fn verify(
    known: &mut Vec<Known>,
    gates: &[Gate],
    inputs: &[u32],
    wire: u32,
    table: u64,
) -> Result<bool, AllocError>
    ensures { IfOk result (λ yes. IsTrue yes → (u : ℕ → Bool) → Holds u gates.now → Computes u inputs.now table wire) }
{
    begin(known, inputs)?;
    if !follow(known, gates)? {
        return Ok(false);
    }
    match table_of(known, wire) {
        Some(found) => Ok(found == table),
        None => Ok(false),
    }
}
