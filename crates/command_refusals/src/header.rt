//! The place of a no to questions 4 to 6: what is wrong with the three header lines.

use crate::lines::{Span, count_words, first_odd, next_line, number, word};
use crate::place::{Fault, Found, Line};
use netlist::Limits;
use reader::header_lines::{HeaderNumbers, read_header};
use text::count::count_lines;

/// The three header lines, as far as they are there.
#[derive(Clone, Copy)]
struct Lines {
    first: Span,
    second: Span,
    third: Span,
}

fn lines_of(text: &[u8]) -> Option<Lines> {
    let first = next_line(text, 0)?;
    let second = next_line(text, first.end)?;
    let third = next_line(text, second.end)?;
    Some(Lines {
        first,
        second,
        third,
    })
}

/// The place of a line's word, or of its end where it has fewer.
fn place_of_word(text: &[u8], line: Span, index: usize) -> usize {
    match word(text, line, index) {
        Some(word) => word.start,
        None => line.end,
    }
}

/// What is wrong with line one.
fn odd_counts(text: &[u8], line: Span) -> Option<Found> {
    let fault = Fault::Counts;
    if let Some(odd) = first_odd(text, line, 0) {
        return Some(Found {
            at: odd.start,
            fault,
        });
    }
    match count_words(text, line) {
        2 => None,
        0 | 1 => Some(Found {
            at: line.end,
            fault,
        }),
        _ => Some(Found {
            at: place_of_word(text, line, 2),
            fault,
        }),
    }
}

/// The first width of a line that is 0.
fn zero(text: &[u8], line: Span) -> Option<usize> {
    for index in 0..count_words(text, line) {
        let word = word(text, line, index)?;
        if number(word.of(text)) == Some(0) {
            return Some(word.start);
        }
    }
    None
}

/// What is wrong with a line of values.
fn odd_values(text: &[u8], line: Span, which: Line) -> Option<Found> {
    let fault = Fault::Values(which);
    if let Some(odd) = first_odd(text, line, 0) {
        return Some(Found {
            at: odd.start,
            fault,
        });
    }
    if let Some(at) = zero(text, line) {
        return Some(Found {
            at,
            fault: Fault::Width(which),
        });
    }
    let count = number(word(text, line, 0)?.of(text))? as usize;
    let found = count_words(text, line).saturating_sub(1);
    if found == count {
        return None;
    }
    let at = place_of_word(
        text,
        line,
        count.saturating_add(1).min(found.saturating_add(1)),
    );
    Some(Found { at, fault })
}

/// The first header line that has not its form, by question 4.
pub fn odd_line(text: &[u8]) -> Option<Found> {
    let missing = Found {
        at: text.len(),
        fault: Fault::NoHeader,
    };
    let Some(first) = next_line(text, 0) else {
        return Some(missing);
    };
    if let Some(found) = odd_counts(text, first) {
        return Some(found);
    }
    let Some(second) = next_line(text, first.end) else {
        return Some(missing);
    };
    if let Some(found) = odd_values(text, second, Line::Inputs) {
        return Some(found);
    }
    let Some(third) = next_line(text, second.end) else {
        return Some(missing);
    };
    odd_values(text, third, Line::Outputs)
}

fn header(text: &[u8]) -> Option<HeaderNumbers> {
    let mut inputs = [0u32; 17];
    let mut outputs = [0u32; 17];
    let (numbers, _) = read_header(text, &mut inputs, &mut outputs)?;
    Some(numbers)
}

/// A number of bits in 64 bits; no header's are more.
fn bits(count: u128) -> u64 {
    u64::try_from(count).unwrap_or(u64::MAX)
}

fn many(line: Line, found: usize, most: usize) -> Option<Fault> {
    if found <= most {
        return None;
    }
    Some(Fault::Many {
        line,
        found: found as u64,
        most: most as u64,
    })
}

fn wide(line: Line, found: u128, wires: u32) -> Option<Fault> {
    if found <= u128::from(wires) {
        return None;
    }
    Some(Fault::Bits {
        line,
        found: bits(found),
        most: u64::from(wires),
    })
}

/// The number of a header that is beyond its limit, by question 5: the wires, then the values, then their bits.
pub fn beyond(text: &[u8], limits: Limits) -> Option<Found> {
    let lines = lines_of(text)?;
    let numbers = header(text)?;
    if limits.wires < numbers.wires {
        let fault = Fault::Wires {
            found: u64::from(numbers.wires),
            most: u64::from(limits.wires),
        };
        let at = place_of_word(text, lines.first, 1);
        return Some(Found { at, fault });
    }
    let inputs = many(Line::Inputs, numbers.input_values, limits.inputs);
    if let Some(fault) = inputs.or(wide(Line::Inputs, numbers.input_bits, numbers.wires)) {
        let at = lines.second.start;
        return Some(Found { at, fault });
    }
    let outputs = many(Line::Outputs, numbers.output_values, limits.outputs);
    if let Some(fault) = outputs.or(wide(Line::Outputs, numbers.output_bits, numbers.wires)) {
        let at = lines.third.start;
        return Some(Found { at, fault });
    }
    None
}

/// What is wrong with the gate count, by question 6: it is not the wires less the input bits, or not the number of
/// gate lines.
pub fn miscounted(text: &[u8]) -> Option<Found> {
    let lines = lines_of(text)?;
    let mut inputs = [0u32; 17];
    let mut outputs = [0u32; 17];
    let (numbers, after) = read_header(text, &mut inputs, &mut outputs)?;
    let at = lines.first.start;
    let found = u64::from(numbers.gates);
    let wires = u64::from(numbers.wires);
    let input_bits = bits(numbers.input_bits);
    if Some(found) != wires.checked_sub(input_bits) {
        let fault = Fault::GateCount {
            found,
            wires,
            inputs: input_bits,
        };
        return Some(Found { at, fault });
    }
    let fault = Fault::GateLines {
        found,
        lines: count_lines(after) as u64,
    };
    Some(Found { at, fault })
}
