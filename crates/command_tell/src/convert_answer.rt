//! `fidrovelj convert`.

use circuit::Circuit;
use command_answer::answer::Answer;
use command_answer::failure::Failure;
use command_answer::files::{Files, Text};
use command_answer::netlists::{blif_of, circuit_of, fashion_of, masked_limits, refused};
use command_netlists::conversions::{Rewriting, rewrite};
use command_words::format::format_of;
use command_words::plan::{ConvertTask, Format, Role};
use std::alloc::Global;

/// The netlist as a circuit with its names.
fn circuit(
    alloc: Global,
    task: &ConvertTask,
    files: Files,
    netlist: &Text,
) -> Result<Circuit, Failure> {
    let name = netlist.name.as_str();
    let bytes = netlist.bytes.as_slice();
    if format_of(task.from, name, bytes) == Format::Blif {
        return blif_of(
            alloc,
            netlist,
            files.get(Role::Cells),
            task.masks.as_deref(),
        );
    }
    match fashion_of(alloc, netlist, task.from)? {
        Some(text) => circuit_of(alloc, name, text.as_slice()),
        None => circuit_of(alloc, name, bytes),
    }
}

/// The text of a circuit in a notation for synthesis tools or compilers.
fn written(alloc: Global, task: &ConvertTask, circuit: &Circuit) -> Result<String, Failure> {
    let module = task.module.as_deref();
    Ok(match task.to {
        Format::Blif => blif::write::write(alloc, circuit)?,
        Format::C => c_out::write(
            alloc,
            circuit,
            c_out::Options {
                word: "uint64_t",
                function: module.unwrap_or("netlist"),
                barriers: task.is_kept,
            },
        )?,
        Format::Verilog => verilog_out::write::write(
            alloc,
            circuit,
            verilog_out::write::Options {
                module,
                keep: task.is_kept,
            },
        )?,
        _ => circuit::fashion::write(alloc, circuit)?,
    })
}

/// The netlist in the notation that is asked for.
pub fn answer(
    alloc: Global,
    task: ConvertTask,
    files: Files,
    netlist: &Text,
) -> Result<Answer, Failure> {
    let mut answer = Answer::new(alloc);
    if matches!(task.to, Format::Blif | Format::C | Format::Verilog) {
        let circuit = circuit(alloc, &task, files, netlist)?;
        let text = written(alloc, &task, &circuit)?;
        answer.deliver(task.out, text.into_bytes())?;
        return Ok(answer);
    }
    let read = circuit_text(alloc, &task, files, netlist)?;
    let text = match &read {
        Some(text) => text.as_slice(),
        None => netlist.bytes.as_slice(),
    };
    let which = match task.to {
        Format::Older => Rewriting::ToOlder,
        _ => Rewriting::Written,
    };
    match rewrite(alloc, which, text)? {
        Ok(written) => answer.deliver(task.out, written)?,
        Err(question) => return Err(refused(
            alloc,
            netlist.name.as_str(),
            text,
            question,
            masked_limits(),
        )),
    }
    Ok(answer)
}

/// The netlist in Bristol Fashion; none where it is that already.
fn circuit_text(
    alloc: Global,
    task: &ConvertTask,
    files: Files,
    netlist: &Text,
) -> Result<Option<Vec<u8>>, Failure> {
    if format_of(task.from, netlist.name.as_str(), netlist.bytes.as_slice()) == Format::Blif {
        let circuit = circuit(alloc, task, files, netlist)?;
        return Ok(Some(circuit::fashion::write(alloc, &circuit)?.into_bytes()));
    }
    fashion_of(alloc, netlist, task.from)
}
