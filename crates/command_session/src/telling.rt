//! What a session says of its steps.

use gates::records::{GateRecord, SourceRecord};
use netlist::Refusal;
use std::alloc::AllocError;

/// A masked gate as a gate line.
pub fn write_gate(text: &mut String, gate: GateRecord) -> Result<(), AllocError> {
    let GateRecord {
        kind,
        first,
        second,
        result,
    } = gate;
    match kind {
        1 => writeln!(text, "2 1 {first} {second} {result} XOR"),
        2 => writeln!(text, "2 1 {first} {second} {result} AND"),
        3 => writeln!(text, "1 1 {first} {result} INV"),
        4 => writeln!(text, "1 1 {first} {result} EQW"),
        _ => writeln!(text, "1 1 {first} {result} EQ"),
    }
}

/// Where the result of a source gate stands.
pub fn write_twin(text: &mut String, gate: SourceRecord) -> Result<(), AllocError> {
    let wire = gate.result;
    let twin = gate.wire;
    let code = gate.code;
    writeln!(
        text,
        "# wire {wire} stands on masked wire {twin} under code {code}"
    )
}

/// What a question that refuses a step says, by its number.
pub fn said(number: u8) -> &'static str {
    let question = match number {
        4 => Refusal::Header,
        5 => Refusal::Limits,
        7 => Refusal::Line,
        8 => Refusal::Operands,
        9 => Refusal::Wire,
        11 => Refusal::Inputs,
        13 => Refusal::Wanted,
        14 => Refusal::Room,
        23 => Refusal::Gate,
        _ => Refusal::Place,
    };
    question.words()
}
