//! Why a list is not taken.

use std::alloc::AllocError;
use thiserror::Error;

/// Why a list of codes, bits, values or pairs is not taken, in words for the user.
#[derive(Debug, Drop, Error)]
pub enum ListError {
    /// the list has another number of entries than there are bits
    #[error("{found} {what} for {wanted} {bits}")]
    Count {
        what: &'static str,
        found: usize,
        wanted: usize,
        bits: &'static str,
    },
    /// a word of a list of codes is neither digits nor a number, `*` and a digit
    #[error("{0:?} is no list of codes: write one digit for all bits, one for each, 0=1,1=2 by value, 256*1 or @FILE")]
    Codes(String),
    /// a list names a value that the netlist does not have
    #[error("there is no value {value}: the netlist has {values}, numbered from 0")]
    NoValue {
        value: usize,
        values: usize,
    },
    /// a list by value names a value twice, or leaves one out
    #[error("value {value} has codes {times} times: give each of the {values} values once")]
    Times {
        value: usize,
        times: usize,
        values: usize,
    },
    /// the codes of one value are neither one digit nor a digit for each of its bits
    #[error("{found} codes for the {width} bits of value {value}: give one digit for all, or one for each")]
    Width {
        value: usize,
        found: usize,
        width: usize,
    },
    /// a word of a list of input values is neither bits nor a number in hexadecimal digits
    #[error("{0:?} is no input value: write bits, first bit first, or 0x and hexadecimal digits")]
    Value(String),
    /// a number has more bits than its value
    #[error("{text} has more than the {width} bits of value {value}")]
    TooWide {
        text: String,
        value: usize,
        width: usize,
    },
    /// a line of a file of pairs is not two wires
    #[error("line {0} is no pair: write two wire numbers a line")]
    Pair(usize),
    /// a line of a file of vectors is not taken
    #[error("line {0} is no vector: write input values, then if wanted = and the output values")]
    Vector(usize),
    /// memory ran out
    #[error("out of memory")]
    Memory,
}

impl From<AllocError> for ListError {
    fn from(_: AllocError) -> ListError {
        ListError::Memory
    }
}
