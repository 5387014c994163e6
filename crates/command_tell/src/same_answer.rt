//! `fidrovelj same`.

use circuit::{Circuit, bit_name};
use command_answer::answer::{Answer, Status};
use command_answer::failure::Failure;
use command_answer::files::Text;
use command_answer::netlists::{circuit_of, fashion_of};
use command_words::plan::{Format, SameTask};
use same::Comparison;
use std::alloc::{AllocError, Global};
use std::fmt::Write;

/// The circuit of a file's netlist.
fn circuit(alloc: Global, from: Option<Format>, file: &Text) -> Result<Circuit, Failure> {
    let name = file.name.as_str();
    match fashion_of(alloc, file, from)? {
        Some(text) => circuit_of(alloc, name, text.as_slice()),
        None => circuit_of(alloc, name, file.bytes.as_slice()),
    }
}

/// The names of the bits of values that are one.
fn ones(alloc: Global, circuit: &Circuit, bits: &[bool]) -> Result<String, AllocError> {
    let mut out = String::new(alloc);
    let mut rest = bits.iter();
    for port in &circuit.inputs {
        for bit in 0..port.width {
            if rest.next().copied().unwrap_or(false) {
                let name = bit_name(alloc, port, bit)?;
                write!(out, " {name}")?;
            }
        }
    }
    Ok(out)
}

/// What the comparison of two netlists comes to: the status is 1 at a difference.
pub fn answer(
    alloc: Global,
    task: SameTask,
    first: &Text,
    second: &Text,
) -> Result<Answer, Failure> {
    let left = circuit(alloc, task.from, first)?;
    let right = circuit(alloc, task.from, second)?;
    let mut answer = Answer::new(alloc);
    let line = match same::compare(alloc, &left, &right, task.settings, task.seed) {
        Ok(
            Comparison::NoDifference {
                settings,
                all: true,
            },
        ) => { format!(in alloc; "no difference in all {settings} settings")? }
        Ok(
            Comparison::NoDifference {
                settings,
                all: false,
            },
        ) => { format!(in alloc; "no difference in {settings} settings")? }
        Ok(Comparison::Difference { inputs, output }) => {
            answer.status = Status::Found;
            let ones = ones(alloc, &left, inputs.as_slice())?;
            format!(in alloc;
                "difference: output bit {output}, where of the input bits these alone are one:{ones}"
            )?
        }
        Err(error) => {
            let left = first.name.as_str();
            let right = second.name.as_str();
            return Err(Failure::Words(format!(in alloc; "{left} and {right}: {error}")?));
        }
    };
    answer.say(line.as_str())?;
    Ok(answer)
}
