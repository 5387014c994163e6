//! The gates of a list of cells in any order.

ghost use Rattle.std.specs.Prelude.{ℕ, Bool, List, IfOk, All};
ghost use Rattle.netlist.specs.Netlist.{Netlist};
ghost use Rattle.netlist.specs.Eval.{bits_at, wire_bits};
ghost use Rattle.netlist.specs.Read.{WellFormed};
ghost use Rattle.cells.specs.Computes.{Holds};
ghost use Rattle.cells.specs.Netlists.{CellHolds};

use crate::check::check_cells;
use crate::emit::{EmitError, Emitter};
use crate::order::order;
use crate::outputs::put_outputs;
use crate::table::MOST_INPUTS;
use netlist::Gate;
use std::alloc::{AllocError, AllocFailed, Global};
use thiserror::Error;

/// A cell: the net that it gives, the nets that it reads, and its truth table over these.
#[derive(Debug, Drop)]
pub struct Cell {
    pub output: u32,
    pub inputs: Vec<u32>,
    pub table: u64,
}

/// Why cells have no gates. Nets and cells are told by number.
#[derive(Clone, Copy, Debug, PartialEq, Eq, Error)]
pub enum BuildError {
    #[error("out of memory")]
    Memory,
    #[error("there are more than 4294967295 wires")]
    Wires,
    #[error("cell {cell} has more than six inputs")]
    Inputs { cell: usize },
    #[error("cell {cell} depends on more than its inputs")]
    Table { cell: usize },
    #[error("cell {cell} reads, by way of others, what it gives")]
    Cycle { cell: usize },
    #[error("cell {cell} reads net {net}, which nothing gives")]
    Unset { cell: usize, net: u32 },
    #[error("net {net} is given twice")]
    Twice { net: u32 },
}

impl From<AllocError> for BuildError {
    fn from(_error: AllocError) -> Self {
        BuildError::Memory
    }
}

impl<T: Drop> From<AllocFailed<T>> for BuildError {
    fn from(_error: AllocFailed<T>) -> Self {
        BuildError::Memory
    }
}

/// The gates of a cell, by the places of the first and after the last.
#[derive(Clone, Copy, Debug)]
pub struct Span {
    pub start: usize,
    pub end: usize,
}

/// The gates of cells, how many wires there are, the wire of each net, or `NO_WIRE`, and which gates are each cell's.
#[derive(Drop)]
pub struct Built {
    pub gates: Vec<Gate>,
    pub wires: u32,
    pub wire_of: Vec<u32>,
    pub spans: Vec<Span>,
}

/// What stands in place of a wire for a net that nothing gives.
pub const NO_WIRE: u32 = 0xffff_ffff;

/// The gates of some of the cells.
#[derive(Drop)]
struct Builder {
    emitter: Emitter,
    wire_of: Vec<u32>,
    spans: Vec<Span>,
    inputs: Vec<u32>,
}

impl Builder {
    /// Gives a net its wire.
    fn give(&mut self, net: u32, wire: u32) -> Result<(), BuildError> {
        let Some(place) = self.wire_of.get_mut(net as usize) else {
            return Err(BuildError::Twice { net });
        };
        if *place != NO_WIRE {
            return Err(BuildError::Twice { net });
        }
        *place = wire;
        Ok(())
    }

    /// The wires of the nets that a cell reads, in `inputs`.
    fn read_inputs(&mut self, number: usize, cell: &Cell) -> Result<(), BuildError> {
        self.inputs.clear();
        for net in &cell.inputs {
            let wire = self.wire_of.get(*net as usize).copied().unwrap_or(NO_WIRE);
            if wire == NO_WIRE {
                return Err(BuildError::Unset {
                    cell: number,
                    net: *net,
                });
            }
            self.inputs.push(wire)?;
        }
        Ok(())
    }

    /// The gates of a cell whose inputs are given.
    fn cell(&mut self, number: usize, cell: &Cell) -> Result<(), BuildError> {
        self.read_inputs(number, cell)?;
        if self.inputs.len() > MOST_INPUTS {
            return Err(BuildError::Inputs { cell: number });
        }
        let start = self.emitter.gates.len();
        let wire = match self.emitter.cell(&self.inputs, cell.table) {
            Ok(wire) => wire,
            Err(EmitError::Memory) => return Err(BuildError::Memory),
            Err(EmitError::Wires) => return Err(BuildError::Wires),
            Err(EmitError::Table) => return Err(BuildError::Table { cell: number }),
        };
        if let Some(span) = self.spans.get_mut(number) {
            let end = self.emitter.gates.len();
            *span = Span { start, end };
        }
        self.give(cell.output, wire)
    }
}

/// The gates of cells, over `nets` nets of which `given` are the input bits, in the order of their wires.
fn build_cells(
    alloc: Global,
    nets: usize,
    given: &[u32],
    cells: &[Cell],
) -> Result<Built, BuildError> {
    let bits = u32::try_from(given.len()).map_err(|_| BuildError::Wires)?;
    let mut builder = Builder {
        emitter: Emitter::new(alloc, bits),
        wire_of: vec![in alloc; NO_WIRE; nets]?,
        spans: vec![in alloc; Span { start: 0, end: 0 }; cells.len()]?,
        inputs: Vec::new(alloc),
    };
    for (wire, net) in (0u32..).zip(given.iter()) {
        builder.give(*net, wire)?;
    }
    let order = order(alloc, nets, cells)?;
    for number in &order {
        if let Some(cell) = cells.get(*number) {
            builder.cell(*number, cell)?;
        }
    }
    let Builder {
        emitter,
        wire_of,
        spans,
        ..
    } = builder;
    let Emitter { gates, wires, .. } = emitter;
    Ok(Built {
        gates,
        wires,
        wire_of,
        spans,
    })
}

/// The gates of cells in any order, over `nets` nets. The nets `given` are the input bits, which are the first wires,
/// and the nets `outputs` the output bits, which are the last.
pub fn build(
    alloc: Global,
    nets: usize,
    given: &[u32],
    cells: &[Cell],
    outputs: &[u32],
) -> Result<Built, BuildError>
    // With any bits of wires that the gates allow, the wires of each cell's nets carry what its table says.
    ensures cells { IfOk result (λ built. (u : ℕ → Bool) → Holds u built.gates.items
        → All (CellHolds u built.wire_of.items) cells.now) }
{
    let inputs = u32::try_from(given.len()).map_err(|_| BuildError::Wires)?;
    let made = build_cells(alloc, nets, given, cells)?;
    let built = put_outputs(alloc, made, inputs, outputs)?;
    check_cells(alloc, &built, cells)?;
    Ok(built)
}

/// In a well-formed netlist, the bits of all wires, from any input bits, are such bits: each gate's wire has what the
/// gate makes.
pub fn runs_hold()
    ensures { (N : Netlist) (ins : List Bool) → WellFormed N → Holds (bits_at (wire_bits N ins)) N.gates }
{}
