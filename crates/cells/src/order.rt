//! An order of cells in which each stands after those that give its inputs.

use crate::build::{BuildError, Cell};
use std::alloc::Global;

/// How far the walk is with a cell.
#[derive(Clone, Copy, Debug, PartialEq, Eq)]
enum State {
    Unseen,
    Open,
    Done,
}

/// A cell whose inputs are looked at, and the place of the next one.
#[derive(Clone, Copy, Debug)]
struct Visit {
    cell: usize,
    place: usize,
}

/// The walk from cells to those that give their inputs.
#[derive(Drop)]
struct Walk<'a> {
    cells: &'a [Cell],
    drivers: Vec<usize>,
    states: Vec<State>,
    open: Vec<Visit>,
    order: Vec<usize>,
}

impl Walk<'_> {
    /// Opens a cell that was not seen. One that is open gives an input of its own.
    fn open(&mut self, cell: usize) -> Result<(), BuildError> {
        let Some(state) = self.states.get_mut(cell) else {
            return Ok(());
        };
        match *state {
            State::Unseen => {
                *state = State::Open;
                self.open.push(Visit { cell, place: 0 })?;
                Ok(())
            }
            State::Open => Err(BuildError::Cycle { cell }),
            State::Done => Ok(()),
        }
    }

    /// Looks at one more input, or ends the cell where there is none. Whether a cell was open.
    fn step(&mut self) -> Result<bool, BuildError> {
        let Some(visit) = self.open.pop() else {
            return Ok(false);
        };
        let net = match self.cells.get(visit.cell) {
            Some(cell) => cell.inputs.get(visit.place).copied(),
            None => None,
        };
        match net {
            Some(net) => {
                self.open.push(Visit {
                    cell: visit.cell,
                    place: visit.place.saturating_add(1),
                })?;
                if let Some(driver) = self.drivers.get(net as usize).copied() {
                    self.open(driver)?;
                }
            }
            None => {
                if let Some(state) = self.states.get_mut(visit.cell) {
                    *state = State::Done;
                }
                self.order.push(visit.cell)?;
            }
        }
        Ok(true)
    }

    /// A cell, after all that it needs.
    fn walk(&mut self, cell: usize) -> Result<(), BuildError> {
        if self.states.get(cell).copied() != Some(State::Unseen) {
            return Ok(());
        }
        self.open(cell)?;
        for _ in 0..u64::MAX {
            if !self.step()? {
                break;
            }
        }
        Ok(())
    }
}

/// The cell that gives each net, or the number of cells where none does.
fn drivers(alloc: Global, nets: usize, cells: &[Cell]) -> Result<Vec<usize>, BuildError> {
    let mut drivers = vec![in alloc; cells.len(); nets]?;
    for (number, cell) in cells.iter().enumerate() {
        if let Some(driver) = drivers.get_mut(cell.output as usize) {
            *driver = number;
        }
    }
    Ok(drivers)
}

/// The cells by number, each after those that give its inputs. Where they form a cycle, a cell of it is told.
pub fn order(alloc: Global, nets: usize, cells: &[Cell]) -> Result<Vec<usize>, BuildError> {
    let mut walk = Walk {
        cells,
        drivers: drivers(alloc, nets, cells)?,
        states: vec![in alloc; State::Unseen; cells.len()]?,
        open: Vec::new(alloc),
        order: Vec::new(alloc),
    };
    for cell in 0..cells.len() {
        walk.walk(cell)?;
    }
    Ok(walk.order)
}
