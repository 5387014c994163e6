//! A circuit as a text of BLIF: a `.names` for each gate, in the order of the gates.

use circuit::wires::wire_names;
use circuit::{Circuit, Port, bit_name};
use netlist::Gate;
use std::alloc::{AllocError, Global};
use std::fmt::Write;

/// The name of a wire. A wire past the last has none.
fn name(names: &[String], wire: u32) -> &str {
    match names.get(wire as usize) {
        Some(name) => name.as_str(),
        None => "",
    }
}

/// Writes a line for each value: a command, and the names of its bits.
fn write_ports(
    alloc: Global,
    out: &mut String,
    command: &str,
    ports: &[Port],
) -> Result<(), AllocError> {
    for port in ports {
        out.push_str(command)?;
        for bit in 0..port.width {
            let name = bit_name(alloc, port, bit)?;
            out.push(' ')?;
            out.push_str(name.as_str())?;
        }
        out.push('\n')?;
    }
    Ok(())
}

/// Writes a copy for each output bit whose wire, of those from `first` on, has another name: that of an input.
fn write_copies(
    alloc: Global,
    out: &mut String,
    ports: &[Port],
    names: &[String],
    first: u32,
) -> Result<(), AllocError> {
    let mut wire = first;
    for port in ports {
        for bit in 0..port.width {
            let target = bit_name(alloc, port, bit)?;
            let source = name(names, wire);
            if target.as_str() != source {
                write!(out, ".names {source} {target}\n1 1\n")?;
            }
            wire = wire.saturating_add(1);
        }
    }
    Ok(())
}

/// Writes a gate as a cover.
fn write_gate(out: &mut String, gate: Gate, names: &[String]) -> Result<(), AllocError> {
    match gate {
        Gate::Xor(left, right, result) => {
            let left = name(names, left);
            let right = name(names, right);
            let result = name(names, result);
            write!(out, ".names {left} {right} {result}\n01 1\n10 1\n")
        }
        Gate::And(left, right, result) => {
            let left = name(names, left);
            let right = name(names, right);
            let result = name(names, result);
            write!(out, ".names {left} {right} {result}\n11 1\n")
        }
        Gate::Inv(source, result) => {
            let source = name(names, source);
            let result = name(names, result);
            write!(out, ".names {source} {result}\n0 1\n")
        }
        Gate::Eqw(source, result) => {
            let source = name(names, source);
            let result = name(names, result);
            write!(out, ".names {source} {result}\n1 1\n")
        }
        Gate::Eq(0, result) => {
            let result = name(names, result);
            write!(out, ".names {result}\n")
        }
        Gate::Eq(_, result) => {
            let result = name(names, result);
            write!(out, ".names {result}\n1\n")
        }
    }
}

/// The circuit as one model, of its own name or of `netlist` where it has none.
pub fn write(alloc: Global, circuit: &Circuit) -> Result<String, AllocError> {
    let names = wire_names(alloc, circuit)?;
    let model = if circuit.name.is_empty() {
        "netlist"
    } else {
        circuit.name.as_str()
    };
    let mut out = format!(in alloc; ".model {model}\n")?;
    let first = circuit
        .wires
        .saturating_sub(circuit::bits(&circuit.outputs));
    write_ports(alloc, &mut out, ".inputs", &circuit.inputs)?;
    write_ports(alloc, &mut out, ".outputs", &circuit.outputs)?;
    for gate in &circuit.gates {
        write_gate(&mut out, *gate, &names)?;
    }
    write_copies(alloc, &mut out, &circuit.outputs, &names, first)?;
    out.push_str(".end\n")?;
    Ok(out)
}
