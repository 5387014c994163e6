//! The gate reader for programs in C and Rust: a text and a place in it stand for a reader.
ghost use Rattle.std.specs.Prelude.{◌≡◌};
ghost use Rattle.netlist.specs.Netlist.{masked_limits as limits_of_masked};
ghost use Rattle.capi.specs.Number.{sizes_of};
ghost use Rattle.capi.specs.Reading.{open_answer, next_answer, no_gate as blank_gate, OpenTold, NextTold};

use crate::answers::sizes;
use gates::records::GateRecord;
use netlist::Refusal;
use reader::gate_reader::GateReader;
use reader::header::Header;
use reader::reader_opening::open_at;
use reader::step::Step;

/// The place before the first gate, what the header counts, and 0; or the number of the question that refuses the text,
/// and then all else is 0.
#[repr(C)]
#[derive(Clone, Copy, Default)]
pub struct OpenAnswer {
    pub at: usize,
    pub input_values: usize,
    pub output_values: usize,
    pub input_bits: u64,
    pub output_bits: u64,
    pub wires: u32,
    pub gates: u32,
    pub refused: u8,
}

/// A gate, the place before the next one, and 0. At the end the gate has kind 0, and the place is the one that was
/// given; so it is where the line is no gate, and then the number is 7.
#[repr(C)]
#[derive(Clone, Copy)]
pub struct NextAnswer {
    pub gate: GateRecord,
    pub at: usize,
    pub refused: u8,
}

// An opening as C reads it.
fn open_told(answer: Result<(Header, GateReader), Refusal>) -> OpenAnswer
    ensures { result ≡ open_answer answer.entry }
{
    match answer {
        Ok((header, reader)) => OpenAnswer {
            at: reader.at,
            input_values: header.input_values,
            output_values: header.output_values,
            input_bits: header.input_bits,
            output_bits: header.output_bits,
            wires: header.wires,
            gates: header.gates,
            refused: 0,
        },
        Err(question) => OpenAnswer {
            at: 0,
            input_values: 0,
            output_values: 0,
            input_bits: 0,
            output_bits: 0,
            wires: 0,
            gates: 0,
            refused: question.number(),
        },
    }
}

// The record without a gate.
fn no_gate() -> GateRecord
    ensures { result ≡ blank_gate }
{
    GateRecord {
        kind: 0,
        first: 0,
        second: 0,
        result: 0,
    }
}

// A step from a place as C reads it.
fn next_told(at: usize, step: Step) -> NextAnswer
    ensures { result ≡ next_answer at step }
{
    match step {
        Ok(Some((gate, to))) => NextAnswer {
            gate: GateRecord::from(gate),
            at: to,
            refused: 0,
        },
        Ok(None) => NextAnswer {
            gate: no_gate(),
            at,
            refused: 0,
        },
        Err(question) => NextAnswer {
            gate: no_gate(),
            at,
            refused: question.number(),
        },
    }
}

/// Opens a reader: the widths of the values go to the fronts of both lists.
#[unsafe(no_mangle)]
pub extern "C" fn fidrovelj_gate_open(
    text: &[u8],
    inputs: &mut [u32],
    outputs: &mut [u32],
    whole: u8,
) -> OpenAnswer
    ensures { OpenTold (limits_of_masked (sizes_of whole)) text.now inputs.old inputs.new outputs.old outputs.new
        result }
{
    open_told(open_at(text, inputs, outputs, sizes(whole)))
}

/// The gate at a place, where an opening or a gate before it left the reader.
#[unsafe(no_mangle)]
pub extern "C" fn fidrovelj_gate_next(text: &[u8], at: usize) -> NextAnswer
    ensures { NextTold text.now at result }
{
    next_told(at, GateReader::new(text, at).current())
}
