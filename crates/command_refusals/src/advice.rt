//! What to do after a refusal.

use crate::lines::{count_words, next_line};
use netlist::Refusal;

/// The gate that is meant by another tool's name for it.
fn meant(name: &[u8]) -> Option<&'static str> {
    match name {
        b"NOT" => Some("did you mean INV?"),
        b"BUF" | b"BUFF" | b"EQU" => Some("did you mean EQW?"),
        b"XNOR" | b"NAND" | b"NOR" | b"OR" => Some("write it with XOR, AND and INV"),
        b"MAND" => Some("write an AND for each of its gates"),
        _ => None,
    }
}

/// What another notation's first bytes tell.
fn notation(text: &[u8]) -> Option<&'static str> {
    if text.starts_with(b"aag ") {
        Some("this looks like AIGER: give --from aiger")
    } else if text.starts_with(b"aig ") {
        Some("this looks like binary AIGER: write it as ASCII first, as aigtoaig does")
    } else if text.starts_with(b"module") {
        Some("this looks like Verilog: give --from equations")
    } else if text.starts_with(b".model") {
        Some("this looks like BLIF, which is not read yet")
    } else {
        None
    }
}

/// Whether a header is of the older Bristol dialect: line two has three numbers, and a gate follows.
fn is_older(text: &[u8]) -> bool {
    let Some(first) = next_line(text, 0) else {
        return false;
    };
    let Some(second) = next_line(text, first.end) else {
        return false;
    };
    let Some(third) = next_line(text, second.end) else {
        return false;
    };
    count_words(text, second) == 3 && 5 <= count_words(text, third)
}

/// The word at a place.
pub fn word_at(text: &[u8], at: usize) -> &[u8] {
    let rest = &text[at.min(text.len())..];
    match rest
        .iter()
        .position(|byte| matches!(*byte, b' ' | b'\r' | b'\n'))
    {
        Some(end) => &rest[..end.min(rest.len())],
        None => rest,
    }
}

/// What to do about a byte that no netlist has.
fn of_byte(text: &[u8], at: usize) -> &'static str {
    match text.get(at) {
        Some(b'\t') => "write spaces in place of tabs",
        Some(b'\r') => "let lines end in LF or CR LF",
        Some(b'a'..=b'z') => "the names of gates are capital letters",
        _ =>
            "only Bristol Fashion is read here; fidrovelj convert --help names the other notations",
    }
}

/// Whether a place is in the text's first line.
fn is_first_line(text: &[u8], at: usize) -> bool {
    !text[..at.min(text.len())].contains(&b'\n')
}

/// What to do about a question that got a no at a place of a text, where there is something to say.
pub fn advice(text: &[u8], question: Refusal, at: Option<usize>) -> Option<&'static str> {
    match (question, at) {
        (Refusal::Bytes, at) => notation(text).or(at.map(|at| of_byte(text, at))),
        (Refusal::Header, _) if is_older(text) => Some(
            "this looks like the older Bristol header: fidrovelj convert --from older",
        ),
        (Refusal::Header, _) => notation(text),
        (Refusal::Line, Some(at)) => meant(word_at(text, at)),
        (Refusal::Masks, _) => Some(
            "the netlist of Mask ends in an input value of two bits: mask it first, by fidrovelj mask",
        ),
        (Refusal::Settings, _) => Some("leave --exact and --wide out, and the certifier decides"),
        (Refusal::Depth, _) => Some("name a part by a wire and an assign of its own"),
        (Refusal::Latches, _) => Some("give the latches as inputs and outputs"),
        (Refusal::Limits, Some(at)) if is_first_line(text, at) => {
            Some("mask the blocks one by one, and join them by fidrovelj join")
        }
        _ => None,
    }
}
