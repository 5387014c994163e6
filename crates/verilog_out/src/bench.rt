//! A test bench: sixteen random settings of the inputs, each under the four settings of the masks, with the outputs
//! that the circuit has there.

use crate::spelling::spelled;
use circuit::{Circuit, Port, bits};
use rand_core::{Rng, SeedableRng};
use rand_xoshiro::Xoshiro256PlusPlus;
use same::Runner;
use std::alloc::{AllocError, Global};
use std::fmt::Write;

/// The masks of the settings, four in a row: those of the last input value's two bits.
const MASKS: [u64; 2] = [0xaaaa_aaaa_aaaa_aaaa, 0xcccc_cccc_cccc_cccc];

/// Four settings in a row are alike: bit j of the low sixteen bits goes to settings 4 j to 4 j + 3.
fn fourfold(random: u64) -> u64 {
    let mut word = 0u64;
    for place in 0..16u32 {
        if random.wrapping_shr(place) & 1 == 1 {
            word |= 0xfu64.wrapping_shl(place.wrapping_mul(4) & 63);
        }
    }
    word
}

/// The words of the inputs, of which the last two carry the masks.
fn input_words(alloc: Global, count: u32, seed: u64) -> Result<Vec<u64>, AllocError> {
    let mut random = Xoshiro256PlusPlus::seed_from_u64(seed);
    let mut words = Vec::new(alloc);
    for place in 0..count {
        let from_end = (count - place) as usize;
        match (from_end, MASKS) {
            (2, [low, _]) => words.push(low)?,
            (1, [_, high]) => words.push(high)?,
            _ => words.push(fourfold(random.next_u64()))?,
        }
    }
    Ok(words)
}

/// Writes the declarations of the bench's variables or wires for ports.
fn write_variables(
    alloc: Global,
    out: &mut String,
    kind: &str,
    ports: &[Port],
) -> Result<(), AllocError> {
    for port in ports {
        let name = spelled(alloc, port.name.as_str())?;
        let top = port.width.saturating_sub(1);
        writeln!(out, "  {kind} [{top}:0] {name};")?;
    }
    Ok(())
}

/// Writes the module's instance.
fn write_instance(
    alloc: Global,
    out: &mut String,
    module: &str,
    circuit: &Circuit,
) -> Result<(), AllocError> {
    let module = spelled(alloc, module)?;
    write!(out, "  {module} netlist_under_test(")?;
    for (place, port) in circuit
        .inputs
        .iter()
        .chain(circuit.outputs.iter())
        .enumerate()
    {
        let between = if place == 0 { "" } else { ", " };
        let name = spelled(alloc, port.name.as_str())?;
        write!(out, "{between}.{name}({name})")?;
    }
    out.push_str(");\n")
}

/// Writes the bits of a value in a setting, the highest first: bit i is that of the word at `first + i`.
fn write_bits(
    out: &mut String,
    words: &[u64],
    first: usize,
    width: u32,
    setting: u32,
) -> Result<(), AllocError> {
    write!(out, "{width}'b")?;
    for place in 0..width {
        let bit = (width - 1 - place) as usize;
        let word = words.get(first.saturating_add(bit)).copied().unwrap_or(0);
        out.push(if word.wrapping_shr(setting) & 1 == 1 {
            '1'
        } else {
            '0'
        })?;
    }
    Ok(())
}

/// Writes one setting: the inputs, a wait, and what each output has to be.
fn write_setting(
    alloc: Global,
    out: &mut String,
    circuit: &Circuit,
    inputs: &[u64],
    outputs: &[u64],
    setting: u32,
) -> Result<(), AllocError> {
    let mut first = 0usize;
    for port in &circuit.inputs {
        let name = spelled(alloc, port.name.as_str())?;
        write!(out, "    {name} = ")?;
        write_bits(out, inputs, first, port.width, setting)?;
        out.push_str(";\n")?;
        first = first.saturating_add(port.width as usize);
    }
    out.push_str("    #1;\n")?;
    let mut first = 0usize;
    for port in &circuit.outputs {
        let name = spelled(alloc, port.name.as_str())?;
        write!(out, "    if ({name} !== ")?;
        write_bits(out, outputs, first, port.width, setting)?;
        writeln!(
            out,
            ") begin $display(\"setting {setting}: %b\", {name}); bad = bad + 1; end"
        )?;
        first = first.saturating_add(port.width as usize);
    }
    Ok(())
}

/// The test bench of a circuit, whose last input value carries the masks, for a module of this name. It prints `64
/// settings, 0 bad` where the module does what the circuit does.
pub fn write(
    alloc: Global,
    circuit: &Circuit,
    module: &str,
    seed: u64,
) -> Result<String, AllocError> {
    let inputs = input_words(alloc, bits(&circuit.inputs), seed)?;
    let mut runner = Runner::new(alloc, circuit)?;
    runner.run(&inputs);
    let mut outputs = Vec::new(alloc);
    for bit in 0..bits(&circuit.outputs) {
        outputs.push(runner.output(bit))?;
    }
    let mut out = String::new(alloc);
    out.push_str("`timescale 1ns/1ns\nmodule bench;\n  integer bad;\n")?;
    write_variables(alloc, &mut out, "reg", &circuit.inputs)?;
    write_variables(alloc, &mut out, "wire", &circuit.outputs)?;
    write_instance(alloc, &mut out, module, circuit)?;
    out.push_str("  initial begin\n    bad = 0;\n")?;
    for setting in 0..64u32 {
        write_setting(alloc, &mut out, circuit, &inputs, &outputs, setting)?;
    }
    out.push_str("    $display(\"64 settings, %0d bad\", bad);\n    $finish;\n  end\nendmodule\n")?;
    Ok(out)
}
