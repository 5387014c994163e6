//! What is wrong at a place, in words.

use crate::place::{Fault, Line, Shape};
use std::fmt;

impl fmt::Display for Line {
    fn fmt<W: fmt::Write>(&self, f: &mut fmt::Formatter<W>) -> fmt::Result {
        f.write_str(match self {
            Line::Inputs => "input",
            Line::Outputs => "output",
        })
    }
}

/// The words on a header.
fn header_words<W: fmt::Write>(fault: Fault, f: &mut fmt::Formatter<W>) -> fmt::Result {
    match fault {
        Fault::NoHeader => f.write_str(
            "a netlist begins with three lines: gates and wires, widths of the inputs, widths of the outputs",
        ),
        Fault::Counts => f.write_str(
            "line one of a header has two numbers, the gates and the wires",
        ),
        Fault::Values(line) => write!(
            f,
            "the line of the {line} values has their number, and then a width for each"
        ),
        Fault::Width(line) => write!(f, "an {line} value has 1 bit or more"),
        Fault::Wires { found, most } => write!(f, "{found} wires, and at most {most} are admitted"),
        Fault::Many { line, found, most } => {
            write!(f, "{found} {line} values, and at most {most} are admitted")
        }
        Fault::Bits { line, found, most } => {
            write!(f, "{found} {line} bits, and only {most} wires")
        }
        Fault::GateCount {
            found,
            wires,
            inputs,
        } => write!(
            f,
            "{found} gates are announced, but {wires} wires less {inputs} input bits are another number"
        ),
        Fault::GateLines { found, lines } => {
            write!(
                f,
                "{found} gates are announced, and {lines} gate lines follow"
            )
        }
        _ => Ok(()),
    }
}

/// The words on a gate line.
fn gate_words<W: fmt::Write>(fault: Fault, f: &mut fmt::Formatter<W>) -> fmt::Result {
    match fault {
        Fault::Name => f.write_str("unknown gate"),
        Fault::Shape(Shape::Two) => f.write_str("this gate wants 2 1 A B C and its name"),
        Fault::Shape(Shape::One) => f.write_str("this gate wants 1 1 A C and its name"),
        Fault::Number => f.write_str("this is no number: one to six digits, with no leading zero"),
        Fault::Operand(wire) => {
            write!(
                f,
                "operand {wire} is no input and no result of an earlier line"
            )
        }
        Fault::Constant(constant) => write!(f, "the constant of EQ is 0 or 1, and not {constant}"),
        Fault::Input(wire) => write!(f, "result {wire} is an input"),
        Fault::Given(wire) => write!(f, "result {wire} is given by an earlier line"),
        Fault::NoWire { wire, wires } => {
            write!(
                f,
                "result {wire} is no wire: the header has {wires} wires, from 0"
            )
        }
        _ => Ok(()),
    }
}

impl fmt::Display for Fault {
    fn fmt<W: fmt::Write>(&self, f: &mut fmt::Formatter<W>) -> fmt::Result {
        match self {
            Fault::Byte(byte) if matches!(*byte, b'!'..=b'~') => {
                let letter = char::from(*byte);
                write!(
                    f,
                    "no netlist has the byte {letter:?}: digits, capital letters, spaces and line ends alone"
                )
            }
            Fault::Byte(byte) => write!(
                f,
                "no netlist has the byte {byte}: digits, capital letters, spaces and line ends alone"
            ),
            Fault::LoneCr => f.write_str("a CR that no LF follows"),
            Fault::Name
            | Fault::Shape(_)
            | Fault::Number
            | Fault::Operand(_)
            | Fault::Constant(_)
            | Fault::Input(_)
            | Fault::Given(_)
            | Fault::NoWire { .. } => gate_words(*self, f),
            _ => header_words(*self, f),
        }
    }
}
