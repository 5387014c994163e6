//! Why a text is no circuit, and where.

use std::alloc::{AllocError, AllocFailed, Global};
use std::fmt;
use thiserror::Error;

/// The file that a place is of.
#[derive(Clone, Copy, Debug, PartialEq, Eq)]
pub enum Source {
    Netlist,
    Cells,
}

/// A line and a column of a file, both from 1 on.
#[derive(Clone, Copy, Debug, PartialEq, Eq)]
pub struct Place {
    pub source: Source,
    pub line: usize,
    pub column: usize,
}

impl fmt::Display for Place {
    fn fmt<W: fmt::Write>(&self, f: &mut fmt::Formatter<W>) -> fmt::Result {
        let line = self.line;
        let column = self.column;
        match self.source {
            Source::Netlist => write!(f, "{line}:{column}"),
            Source::Cells => write!(f, "cells file, {line}:{column}"),
        }
    }
}

/// What is wrong at a place.
#[derive(Clone, Copy, Debug, PartialEq, Eq, Error)]
pub enum Fault {
    #[error("a `.model` line is wanted first")]
    NoModel,
    #[error("latches are not read: a netlist has no state")]
    Latch,
    #[error("this command is not read; `.model`, `.inputs`, `.outputs`, `.names`, `.subckt`, `.gate` and `.end` are")]
    Command,
    #[error("more words are wanted on this line")]
    Short,
    #[error("this word is one too many")]
    Long,
    #[error("a line of a cover is wanted after `.names` alone")]
    NoCover,
    #[error("a cell has at most six inputs; map the netlist to smaller cells")]
    Inputs,
    #[error("a cube has one of `0`, `1` and `-` for each input")]
    Cube,
    #[error("a cube ends in `0` or `1`")]
    Value,
    #[error("a cover has cubes of ones or of zeros, not both")]
    Mixed,
    #[error("a model of this name is there already")]
    ModelTwice,
    #[error("no model has this name; name the file of the cells")]
    MissingModel,
    #[error("a model that is used as a cell has covers alone; flatten the netlist")]
    Nested,
    #[error("a pin is connected as `pin=net`")]
    Connection,
    #[error("the model has no pin of this name")]
    Pin,
    #[error("this pin is connected twice")]
    PinTwice,
    #[error("an input pin of the model is not connected")]
    Unconnected,
    #[error("this net is given twice")]
    Twice,
    #[error("nothing gives this net")]
    Unset,
    #[error("this cell reads, by way of others, what it gives")]
    Cycle,
    #[error("this cell depends on more than its inputs")]
    Table,
    #[error("the value is not defined: `$undef` is read")]
    Undefined,
    #[error("the model has no inputs or no outputs")]
    NoPorts,
}

/// Why there is no circuit.
#[derive(Clone, Copy, Debug, PartialEq, Eq)]
pub enum BlifError {
    /// memory ran out
    Memory,
    /// a fault, and its place
    Fault { fault: Fault, place: Place },
    /// no input has the name of the masks
    NoMasks,
    /// the netlist takes more wires than a netlist may have
    Wires { wires: u32, most: u32 },
}

impl fmt::Display for BlifError {
    fn fmt<W: fmt::Write>(&self, f: &mut fmt::Formatter<W>) -> fmt::Result {
        match self {
            BlifError::Memory => write!(f, "out of memory"),
            BlifError::Fault { fault, place } => write!(f, "{place}: {fault}"),
            BlifError::NoMasks => write!(f, "no input has the name of the masks"),
            BlifError::Wires { wires, most } => write!(
                f,
                "the gates take {wires} wires, and a netlist has at most {most}"
            ),
        }
    }
}

impl std::error::Error for BlifError {}

impl From<AllocError> for BlifError {
    fn from(_error: AllocError) -> Self {
        BlifError::Memory
    }
}

impl<T: Drop> From<AllocFailed<T>> for BlifError {
    fn from(_error: AllocFailed<T>) -> Self {
        BlifError::Memory
    }
}

/// The word of a file that a fault is about: its line and its number there, both from 1 on.
#[derive(Clone, Copy, Debug, PartialEq, Eq)]
pub struct Spot {
    pub line: usize,
    pub word: usize,
}

/// A fault at a word, or memory that ran out.
#[derive(Clone, Copy, Debug, PartialEq, Eq)]
pub enum Refusal {
    Memory,
    Fault { fault: Fault, spot: Spot },
}

impl From<AllocError> for Refusal {
    fn from(_error: AllocError) -> Self {
        Refusal::Memory
    }
}

impl<T: Drop> From<AllocFailed<T>> for Refusal {
    fn from(_error: AllocFailed<T>) -> Self {
        Refusal::Memory
    }
}

/// A fault at a word.
pub fn at(spot: Spot, fault: Fault) -> Refusal {
    Refusal::Fault { fault, spot }
}

/// The column, from 1 on, at which a word of a line begins.
fn column(line: &str, word: usize) -> usize {
    let mut words = 0usize;
    let mut before = true;
    for (place, byte) in line.bytes().enumerate() {
        let space = byte.is_ascii_whitespace();
        if before && !space {
            words = words.saturating_add(1);
            if words == word {
                return place.saturating_add(1);
            }
        }
        before = space;
    }
    1
}

impl Refusal {
    /// The same, with the place in the text that it is about.
    pub fn placed(self, text: &str, source: Source) -> BlifError {
        match self {
            Refusal::Memory => BlifError::Memory,
            Refusal::Fault { fault, spot } => {
                let line = text.lines().nth(spot.line.saturating_sub(1)).unwrap_or("");
                let place = Place {
                    source,
                    line: spot.line,
                    column: column(line, spot.word),
                };
                BlifError::Fault { fault, place }
            }
        }
    }
}
