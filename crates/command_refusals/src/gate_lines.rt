//! The place of a no to questions 7 to 9: the first gate line that is refused, by the gate reader and the rules of
//! operands and results.

use crate::lines::{Span, count_words, first_odd, next_line, word};
use crate::place::{Fault, Found, Shape};
use netlist::{Gate, Sizes};
use reader::reader_opening::open_at;
use std::alloc::{AllocError, Global};

/// What a gate's name asks of its line.
fn shape(name: &[u8]) -> Option<Shape> {
    match name {
        b"XOR" | b"AND" => Some(Shape::Two),
        b"INV" | b"EQW" | b"EQ" => Some(Shape::One),
        _ => None,
    }
}

/// How many words a gate line has, and its first two.
fn wanted(shape: Shape) -> (usize, &'static [u8]) {
    match shape {
        Shape::Two => (6, b"2"),
        Shape::One => (5, b"1"),
    }
}

fn is_word(text: &[u8], line: Span, index: usize, wanted: &[u8]) -> bool {
    word(text, line, index).is_some_and(|found| found.of(text) == wanted)
}

/// What is wrong with a line that is no gate.
fn odd_words(text: &[u8], line: Span) -> Found {
    let count = count_words(text, line);
    let Some(name) = word(text, line, count.saturating_sub(1)) else {
        return Found {
            at: line.start,
            fault: Fault::Name,
        };
    };
    let Some(shape) = shape(name.of(text)) else {
        return Found {
            at: name.start,
            fault: Fault::Name,
        };
    };
    let (words, first) = wanted(shape);
    if count != words || !is_word(text, line, 0, first) || !is_word(text, line, 1, b"1") {
        return Found {
            at: line.start,
            fault: Fault::Shape(shape),
        };
    }
    match first_odd(text, line, 2) {
        Some(odd) => Found {
            at: odd.start,
            fault: Fault::Number,
        },
        None => Found {
            at: line.start,
            fault: Fault::Shape(shape),
        },
    }
}

/// The operands of a gate, the second none where it has one, and its result. The operand of EQ is a constant, and no
/// wire.
#[derive(Clone, Copy)]
struct Wires {
    first: Option<u32>,
    second: Option<u32>,
    result: u32,
}

fn wires_of(gate: Gate) -> Wires {
    match gate {
        Gate::Xor(first, second, result) | Gate::And(first, second, result) => Wires {
            first: Some(first),
            second: Some(second),
            result,
        },
        Gate::Inv(first, result) | Gate::Eqw(first, result) => Wires {
            first: Some(first),
            second: None,
            result,
        },
        Gate::Eq(_, result) => Wires {
            first: None,
            second: None,
            result,
        },
    }
}

/// Whether a wire is given.
fn is_given(marks: &[u8], wire: u32) -> bool {
    marks.get(wire as usize) == Some(&1)
}

/// The place of a word of a gate line.
fn at_word(text: &[u8], line: Span, index: usize) -> usize {
    match word(text, line, index) {
        Some(word) => word.start,
        None => line.start,
    }
}

/// What question 8 finds in a gate line.
fn odd_operand(text: &[u8], line: Span, gate: Gate, marks: &[u8]) -> Option<Found> {
    if let Gate::Eq(constant, _) = gate {
        if 1 < constant {
            return Some(Found {
                at: at_word(text, line, 2),
                fault: Fault::Constant(constant),
            });
        }
    }
    let wires = wires_of(gate);
    for (index, operand) in [(2usize, wires.first), (3, wires.second)] {
        match operand {
            Some(wire) if !is_given(marks, wire) => {
                return Some(Found {
                    at: at_word(text, line, index),
                    fault: Fault::Operand(wire),
                });
            }
            _ => {}
        }
    }
    None
}

/// What question 9 finds in a gate line, where so many wires are inputs.
fn odd_result(text: &[u8], line: Span, gate: Gate, marks: &[u8], inputs: u64) -> Option<Found> {
    let wire = wires_of(gate).result;
    let fault = if u64::from(wire) < inputs {
        Fault::Input(wire)
    } else if marks.len() <= wire as usize {
        Fault::NoWire {
            wire,
            wires: marks.len() as u32,
        }
    } else if is_given(marks, wire) {
        Fault::Given(wire)
    } else {
        return None;
    };
    let last = count_words(text, line).saturating_sub(2);
    Some(Found {
        at: at_word(text, line, last),
        fault,
    })
}

/// The marks of the wires before the first gate line: 1 for each input.
fn inputs_marked(alloc: Global, wires: u32, inputs: u64) -> Result<Vec<u8>, AllocError> {
    let mut marks = vec![in alloc; 0u8; wires as usize]?;
    for wire in 0..marks.len() {
        if (wire as u64) < inputs {
            marks[wire] = 1;
        }
    }
    Ok(marks)
}

/// The first gate line that questions 7 to 9 refuse.
pub fn odd_gate(alloc: Global, text: &[u8]) -> Result<Option<Found>, AllocError> {
    let mut input_widths = [0u32; 17];
    let mut output_widths = [0u32; 16];
    let opened = open_at(text, &mut input_widths, &mut output_widths, Sizes::Whole);
    let Ok((header, mut reader)) = opened else {
        return Ok(None);
    };
    let mut marks = inputs_marked(alloc, header.wires, header.input_bits)?;
    for _ in 0..header.gates {
        let step = reader.current();
        let Some(line) = next_line(text, reader.at) else {
            return Ok(None);
        };
        let Ok(Some((gate, _))) = step else {
            return Ok(Some(odd_words(text, line)));
        };
        let odd = odd_operand(text, line, gate, marks.as_slice()).or(odd_result(
            text,
            line,
            gate,
            marks.as_slice(),
            header.input_bits,
        ));
        if odd.is_some() {
            return Ok(odd);
        }
        if let Some(mark) = marks.get_mut(wires_of(gate).result as usize) {
            *mark = 1;
        }
        reader = reader.advance(step);
    }
    Ok(None)
}
