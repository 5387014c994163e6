//! A line of a session in words.

use command_lists::numbers::number;
use std::alloc::{AllocError, Global};

/// What a line asks for. The numbers are wires, and of EQ the constant.
#[derive(Clone, Copy, Debug, PartialEq, Eq)]
pub enum Step<'a> {
    /// nothing: a blank line, or what follows `#` alone
    Nothing,
    /// a gate with its kind's number in a record and its operands, the second 0 where it has one
    Gate { kind: u32, first: u32, second: u32 },
    /// the last gate is taken off
    Undo,
    /// the netlist, whose last wires are output values of these widths
    Text(&'a str),
    /// the masked netlist
    Masked(&'a str),
    /// something else
    Unknown,
}

fn wire(word: Option<&str>) -> Option<u32> {
    u32::try_from(number(word?)?).ok()
}

/// A gate of two operands.
fn two<'a>(kind: u32, first: Option<&'a str>, second: Option<&'a str>) -> Step<'a> {
    match (wire(first), wire(second)) {
        (Some(first), Some(second)) => Step::Gate {
            kind,
            first,
            second,
        },
        _ => Step::Unknown,
    }
}

/// A gate of one operand, where no other word follows.
fn one<'a>(kind: u32, first: Option<&'a str>, second: Option<&'a str>) -> Step<'a> {
    match (wire(first), second) {
        (Some(first), None) => Step::Gate {
            kind,
            first,
            second: 0,
        },
        _ => Step::Unknown,
    }
}

/// A netlist that is asked for, with one word for the widths of its output values.
fn shown<'a>(first: Option<&'a str>, second: Option<&'a str>, is_masked: bool) -> Step<'a> {
    match (first, second) {
        (Some(widths), None) if is_masked => Step::Masked(widths),
        (Some(widths), None) => Step::Text(widths),
        _ => Step::Unknown,
    }
}

/// The step of a name and at most two words.
fn named<'a>(name: &str, first: Option<&'a str>, second: Option<&'a str>) -> Step<'a> {
    match name {
        "XOR" => two(1, first, second),
        "AND" => two(2, first, second),
        "INV" => one(3, first, second),
        "EQW" => one(4, first, second),
        "EQ" => one(5, first, second),
        "undo" if first.is_none() => Step::Undo,
        "text" => shown(first, second, false),
        "masked" => shown(first, second, true),
        _ => Step::Unknown,
    }
}

/// The step of the first four words of a line.
fn of_words<'a>(
    name: Option<&'a str>,
    first: Option<&'a str>,
    second: Option<&'a str>,
    third: Option<&'a str>,
) -> Step<'a> {
    match name {
        None => Step::Nothing,
        Some(name) if name.starts_with('#') => Step::Nothing,
        Some(name) if third.is_none() => named(name, first, second),
        Some(_) => Step::Unknown,
    }
}

/// The step of a line.
pub fn step_of(line: &str) -> Step<'_> {
    let mut words = line.split_whitespace();
    let name = words.next();
    let first = words.next();
    let second = words.next();
    let third = words.next();
    of_words(name, first, second, third)
}

/// Widths parted by commas, or none where a word is no number.
pub fn widths_of(alloc: Global, words: &str) -> Result<Option<Vec<u32>>, AllocError> {
    let mut widths = Vec::new(alloc);
    for word in words.split(',') {
        match wire(Some(word.trim())) {
            Some(width) => widths.push(width)?,
            None => return Ok(None),
        }
    }
    Ok(Some(widths))
}
