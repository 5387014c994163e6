//! A circuit as bit-sliced C: each word holds a bit of as many runs as it has bits. After each statement stands an
//! empty barrier on the value: without it compilers add the terms in another order, which undoes masking.
#![tactic(auto)]

use circuit::{Circuit, Port, bits};
use netlist::Gate;
use std::alloc::{AllocError, Global};
use std::fmt::Write;

/// What is written: the type of a word, as `uint32_t`, the name of the function, and whether a barrier stands after
/// each statement.
#[derive(Clone, Copy, Debug)]
pub struct Options<'a> {
    pub word: &'a str,
    pub function: &'a str,
    pub barriers: bool,
}

/// Writes the statement of a gate.
fn write_gate(out: &mut String, word: &str, gate: Gate) -> Result<(), AllocError> {
    match gate {
        Gate::Xor(left, right, result) => write!(out, "    {word} w{result} = w{left} ^ w{right};"),
        Gate::And(left, right, result) => write!(out, "    {word} w{result} = w{left} & w{right};"),
        Gate::Inv(source, result) => write!(out, "    {word} w{result} = ({word})~w{source};"),
        Gate::Eqw(source, result) => write!(out, "    {word} w{result} = w{source};"),
        Gate::Eq(0, result) => write!(out, "    {word} w{result} = 0;"),
        Gate::Eq(_, result) => write!(out, "    {word} w{result} = ({word})~({word})0;"),
    }
}

/// Ends the statement that gives a wire.
fn end_statement(out: &mut String, wire: u32, barriers: bool) -> Result<(), AllocError> {
    if barriers {
        write!(out, " BARRIER(w{wire});")?;
    }
    out.push('\n')
}

/// Writes a comment on which words a value has.
fn write_values(out: &mut String, list: &str, ports: &[Port]) -> Result<(), AllocError> {
    let mut place = 0u32;
    for port in ports {
        let width = port.width;
        writeln!(out, " * {list}[{place}], {width} words: value")?;
        place = place.saturating_add(width);
    }
    Ok(())
}

/// Writes the head of the file.
fn write_head(out: &mut String, circuit: &Circuit, options: Options<'_>) -> Result<(), AllocError> {
    let Options { word, function, .. } = options;
    out.push_str(
        "/* A netlist, bit-sliced: bit j of each word belongs to run j. A word is read for each input bit, one is\n",
    )?;
    out.push_str(" * written for each output bit, from the lowest bit of each value on.\n")?;
    write_values(out, "in", &circuit.inputs)?;
    write_values(out, "out", &circuit.outputs)?;
    out.push_str(" */\n#include <stdint.h>\n\n")?;
    out.push_str("/* The compiler takes the value for one that it does not know. */\n")?;
    out.push_str("#define BARRIER(value) __asm__ volatile(\"\" : \"+r\"(value))\n\n")?;
    writeln!(out, "void {function}(const {word} *in, {word} *out);\n")?;
    writeln!(out, "void {function}(const {word} *in, {word} *out)\n{{")
}

/// The circuit as a function of C over words.
pub fn write(alloc: Global, circuit: &Circuit, options: Options<'_>) -> Result<String, AllocError> {
    let word = options.word;
    let mut out = String::new(alloc);
    write_head(&mut out, circuit, options)?;
    for wire in 0..bits(&circuit.inputs) {
        write!(out, "    {word} w{wire} = in[{wire}];")?;
        end_statement(&mut out, wire, options.barriers)?;
    }
    for gate in &circuit.gates {
        write_gate(&mut out, word, *gate)?;
        end_statement(&mut out, circuit::result(*gate), options.barriers)?;
    }
    let first = circuit.wires.saturating_sub(bits(&circuit.outputs));
    for (place, wire) in (first..circuit.wires).enumerate() {
        writeln!(out, "    out[{place}] = w{wire};")?;
    }
    out.push_str("}\n")?;
    Ok(out)
}
