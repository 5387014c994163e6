//! A circuit from and to a text of Bristol Fashion, which has no names: values are `input0`, `input1`, .. and
//! `output0`, `output1`, ...

use crate::{Circuit, Port};
use netlist::{Gate, Refusal, Sizes};
use reader::gate_reader::GateReader;
use reader::reader_opening::open_at;
use std::alloc::{AllocError, AllocFailed, Global};
use std::fmt::Write;
use thiserror::Error;

/// Why a text is no circuit.
#[derive(Clone, Copy, Debug, PartialEq, Eq, Error)]
pub enum FashionError {
    #[error("out of memory")]
    Memory,
    #[error("{0}")]
    Refused(Refusal),
}

impl From<AllocError> for FashionError {
    fn from(_error: AllocError) -> Self {
        FashionError::Memory
    }
}

impl<T: Drop> From<AllocFailed<T>> for FashionError {
    fn from(_error: AllocFailed<T>) -> Self {
        FashionError::Memory
    }
}

/// Values of these widths, named by a stem and their place.
fn ports(alloc: Global, stem: &str, widths: &[u32]) -> Result<Vec<Port>, AllocError> {
    let mut ports = Vec::new(alloc);
    for (place, width) in widths.iter().enumerate() {
        ports.push(Port {
            name: format!(in alloc; "{stem}{place}")?,
            width: *width,
        })?;
    }
    Ok(ports)
}

/// The gates from a reader on, of which there are this many at most.
fn gates(alloc: Global, opened: GateReader<'_>, count: u32) -> Result<Vec<Gate>, FashionError> {
    let mut reader = opened;
    let mut gates = Vec::new(alloc);
    for _ in 0..count {
        let step = reader.current();
        match step {
            Ok(Some((gate, _))) => gates.push(gate)?,
            Ok(None) => break,
            Err(refusal) => return Err(FashionError::Refused(refusal)),
        }
        reader = reader.advance(step);
    }
    Ok(gates)
}

/// All wires.
fn all_wires(alloc: Global, wires: u32) -> Result<Vec<u32>, AllocError> {
    let mut all = Vec::new(alloc);
    for wire in 0..wires {
        all.push(wire)?;
    }
    Ok(all)
}

/// The circuit of a text, by questions 2 to 7 with the limits for whole ciphers (docs/RULES.md, Questions). No wire
/// has a label, and all are judged. Whether operands are given is not asked.
pub fn read(alloc: Global, text: &[u8]) -> Result<Circuit, FashionError> {
    let mut input_widths = [0u32; 17];
    let mut output_widths = [0u32; 16];
    let (header, reader) = match open_at(
        text,
        &mut input_widths,
        &mut output_widths,
        Sizes::Whole,
    ) {
        Ok(opened) => opened,
        Err(refusal) => return Err(FashionError::Refused(refusal)),
    };
    let inputs = input_widths.get(..header.input_values).unwrap_or(&[]);
    let outputs = output_widths.get(..header.output_values).unwrap_or(&[]);
    Ok(Circuit {
        name: String::new(alloc),
        inputs: ports(alloc, "input", inputs)?,
        outputs: ports(alloc, "output", outputs)?,
        wires: header.wires,
        gates: gates(alloc, reader, header.gates)?,
        labels: Vec::new(alloc),
        judged: all_wires(alloc, header.wires)?,
    })
}

/// Writes how many values there are, and their widths.
fn write_widths(out: &mut String, ports: &[Port]) -> Result<(), AllocError> {
    let count = ports.len();
    write!(out, "{count}")?;
    for port in ports {
        let width = port.width;
        write!(out, " {width}")?;
    }
    out.push('\n')
}

/// Writes the line of a gate.
fn write_gate(out: &mut String, gate: Gate) -> Result<(), AllocError> {
    match gate {
        Gate::Xor(left, right, result) => writeln!(out, "2 1 {left} {right} {result} XOR"),
        Gate::And(left, right, result) => writeln!(out, "2 1 {left} {right} {result} AND"),
        Gate::Inv(source, result) => writeln!(out, "1 1 {source} {result} INV"),
        Gate::Eqw(source, result) => writeln!(out, "1 1 {source} {result} EQW"),
        Gate::Eq(value, result) => writeln!(out, "1 1 {value} {result} EQ"),
    }
}

/// The circuit in the written form (docs/RULES.md, Written form).
pub fn write(alloc: Global, circuit: &Circuit) -> Result<String, AllocError> {
    let count = circuit.gates.len();
    let wires = circuit.wires;
    let mut out = format!(in alloc; "{count} {wires}\n")?;
    write_widths(&mut out, &circuit.inputs)?;
    write_widths(&mut out, &circuit.outputs)?;
    out.push('\n')?;
    for gate in &circuit.gates {
        write_gate(&mut out, *gate)?;
    }
    Ok(out)
}
