//! The place of a text at which a question gets its no.

use crate::{gate_lines, header};
use netlist::{Limits, Refusal};
use std::alloc::{AllocError, Global};

/// Where a refusal is seen, and what is there.
#[derive(Clone, Copy, Debug, PartialEq, Eq)]
pub enum Fault {
    /// a byte that no netlist has
    Byte(u8),
    /// a CR that no LF follows
    LoneCr,
    /// there are fewer than three lines
    NoHeader,
    /// line one is not two numbers
    Counts,
    /// line two or three is not a count and as many widths
    Values(Line),
    /// a width of 0
    Width(Line),
    /// more wires than are admitted
    Wires { found: u64, most: u64 },
    /// more values than are admitted
    Many { line: Line, found: u64, most: u64 },
    /// more bits than wires
    Bits { line: Line, found: u64, most: u64 },
    /// a gate count other than the wires less the input bits
    GateCount { found: u64, wires: u64, inputs: u64 },
    /// a gate count other than the number of gate lines
    GateLines { found: u64, lines: u64 },
    /// a gate whose name is not known
    Name,
    /// a gate line with another number of words than its gate wants, or another beginning
    Shape(Shape),
    /// a word of a gate line that is no number
    Number,
    /// an operand that is no input and no result of an earlier line
    Operand(u32),
    /// a constant that is no bit
    Constant(u32),
    /// a result that is an input
    Input(u32),
    /// a result that is given already
    Given(u32),
    /// a result that is no wire
    NoWire { wire: u32, wires: u32 },
}

/// Line two, of the input values, or line three, of the output values.
#[derive(Clone, Copy, Debug, PartialEq, Eq)]
pub enum Line {
    /// line two
    Inputs,
    /// line three
    Outputs,
}

/// What a gate line wants by its name.
#[derive(Clone, Copy, Debug, PartialEq, Eq)]
pub enum Shape {
    /// `2 1 A B C`
    Two,
    /// `1 1 A C`
    One,
}

/// A place of a text, from 0, and what is wrong there.
#[derive(Clone, Copy, Debug, PartialEq, Eq)]
pub struct Found {
    /// the byte's place
    pub at: usize,
    /// what is wrong
    pub fault: Fault,
}

/// The first byte that may not stand in a netlist.
fn odd_byte(text: &[u8]) -> Option<Found> {
    for at in 0..text.len() {
        match text[at] {
            b'0'..=b'9' | b'A'..=b'Z' | b' ' | b'\n' => {}
            b'\r' if text.get(at + 1) == Some(&b'\n') => {}
            b'\r' => {
                return Some(Found {
                    at,
                    fault: Fault::LoneCr,
                });
            }
            byte => {
                return Some(Found {
                    at,
                    fault: Fault::Byte(byte),
                });
            }
        }
    }
    None
}

/// Where a text of Bristol Fashion is refused by a question, under the limits that the service took. Questions 3 to 9
/// have a place; the others are about no place of the text.
pub fn find(
    alloc: Global,
    text: &[u8],
    question: Refusal,
    limits: Limits,
) -> Result<Option<Found>, AllocError> {
    Ok(match question {
        Refusal::Bytes => odd_byte(text),
        Refusal::Header => header::odd_line(text),
        Refusal::Limits => header::beyond(text, limits),
        Refusal::Count => header::miscounted(text),
        Refusal::Line | Refusal::Operands | Refusal::Wire => gate_lines::odd_gate(alloc, text)?,
        _ => None,
    })
}

/// The place at which a question gets its no, or none where it has no place.
pub fn place(
    alloc: Global,
    text: &[u8],
    question: Refusal,
    limits: Limits,
) -> Result<Option<usize>, AllocError> {
    Ok(find(alloc, text, question, limits)?.map(|found| found.at))
}
