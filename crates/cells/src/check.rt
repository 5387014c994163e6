//! Whether gates compute what cells say, whoever made them.

ghost use Rattle.std.specs.Prelude.{◌≡◌, ℕ, Bool, IfOk, OnOk, IsTrue, map, All};
ghost use Rattle.cells.specs.Computes.{Holds};
ghost use Rattle.cells.specs.Netlists.{wire_at, CellHolds};

use crate::build::{BuildError, Built, Cell, NO_WIRE, Span};
use crate::verify::{Known, verify};
use netlist::Gate;
use std::alloc::{AllocError, Global};

/// The wire of a net.
fn wire_of(wires: &[u32], net: u32) -> u32
    ensures { result ≡ wire_at wires.now net }
{
    wires.get(net as usize).copied().unwrap_or(NO_WIRE)
}

/// The wires of nets, in place of what the list held.
fn gather(list: &mut Vec<u32>, wires: &[u32], nets: &[u32]) -> Result<(), AllocError>
    ensures { OnOk result (list.new.items ≡ map (wire_at wires.now) nets.now) }
{
    list.clear();
    for net in nets {
        list.push(wire_of(wires, *net))?;
    }
    Ok(())
}

/// Whether gates compute what a cell says of the wires of its nets. The lists are working store.
fn check_cell(
    known: &mut Vec<Known>,
    inputs: &mut Vec<u32>,
    gates: &[Gate],
    wires: &[u32],
    cell: &Cell,
) -> Result<bool, AllocError>
    ensures { IfOk result (λ yes. IsTrue yes → (u : ℕ → Bool) → Holds u gates.now → CellHolds u wires.now cell.now) }
{
    gather(inputs, wires, &cell.inputs)?;
    let yes = verify(
        known,
        gates,
        inputs,
        wire_of(wires, cell.output),
        cell.table,
    )?;
    Ok(yes)
}

/// The gates of a span, or none where there are not so many.
fn part(gates: &[Gate], span: Span) -> &[Gate]
    ensures { (u : ℕ → Bool) → Holds u gates.now → Holds u result.now }
{
    if span.start <= span.end && span.end <= gates.len() {
        &gates[span.start..span.end]
    } else {
        &gates[..0]
    }
}

/// Asks that the gates of each cell compute what it says.
pub fn check_cells(alloc: Global, built: &Built, cells: &[Cell]) -> Result<(), BuildError>
    ensures { OnOk result ((u : ℕ → Bool) → Holds u built.now.gates.items
        → All (CellHolds u built.now.wire_of.items) cells.now) }
{
    let mut known = Vec::new(alloc);
    let mut inputs = Vec::new(alloc);
    for (number, cell) in cells.iter().enumerate() {
        let span = built
            .spans
            .get(number)
            .copied()
            .unwrap_or(Span { start: 0, end: 0 });
        let gates = part(&built.gates, span);
        if !check_cell(&mut known, &mut inputs, gates, &built.wire_of, cell)? {
            return Err(BuildError::Table { cell: number });
        }
    }
    Ok(())
}
