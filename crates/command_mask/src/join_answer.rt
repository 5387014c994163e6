//! `fidrovelj join`.

use command_answer::answer::Answer;
use command_answer::codes::{codes_file, codes_given, codes_of_file};
use command_answer::failure::Failure;
use command_answer::files::{Files, Text};
use command_answer::grouped::Grouped;
use command_answer::netlists::{masked_limits, refused, refused_because, shape_of};
use command_lists::codes::Side;
use command_masking::joined::{SeamCodes, join};
use command_netlists::shape::Shape;
use command_words::plan::{JoinTask, List, Role};
use netlist::Refusal;
use std::alloc::{AllocError, Global};

/// Which codes are asked for: the option that gives them, and the roles of the files that may have them.
#[derive(Clone, Copy)]
struct Asked {
    option: &'static str,
    given: Role,
    beside: Role,
    side: Side,
}

fn codes(
    alloc: Global,
    asked: Asked,
    list: &Option<List>,
    files: Files,
    widths: &[u32],
) -> Result<Vec<u8>, Failure> {
    let option = asked.option;
    match (list, files.get(asked.beside)) {
        (Some(list), _) => codes_given(alloc, option, list, files, asked.given, widths, asked.side),
        (None, Some(file)) => codes_of_file(alloc, file, widths, asked.side),
        (None, None) => Err(Failure::Words(format!(in alloc;
            "no codes for {option}: give them, or a file of codes beside the netlist"
        )?)),
    }
}

/// The widths of a block's input values before the mask pair.
fn block_inputs<'a>(alloc: Global, file: &Text, shape: &'a Shape) -> Result<&'a [u32], Failure> {
    match shape.source_inputs() {
        Some(widths) => Ok(widths),
        None => Err(refused(
            alloc,
            file.name.as_str(),
            file.bytes.as_slice(),
            Refusal::Masks,
            masked_limits(),
        )),
    }
}

/// The codes of the joined netlist: the first's inputs and, where they are known, the second's outputs.
fn joined_codes(
    alloc: Global,
    files: Files,
    inputs: &[u8],
    input_widths: &[u32],
    output_widths: &[u32],
) -> Result<Option<Vec<u8>>, Failure> {
    let Some(file) = files.get(Role::SecondBeside) else {
        return Ok(None);
    };
    let outputs = codes_of_file(alloc, file, output_widths, Side::Outputs)?;
    Ok(Some(codes_file(
        alloc,
        inputs,
        input_widths,
        outputs.as_slice(),
        output_widths,
    )?))
}

/// The failure of a join.
fn refused_join(
    alloc: Global,
    first: &Text,
    second: &Text,
    question: Refusal,
) -> Result<Failure, AllocError> {
    if question == Refusal::Seam {
        return refused_because(
            alloc,
            second.name.as_str(),
            second.bytes.as_slice(),
            question,
            question.words(),
        );
    }
    let asked = command_netlists::conversions::rewrite(
        alloc,
        command_netlists::conversions::Rewriting::Written,
        first.bytes.as_slice(),
    )?;
    let file = if asked.is_err() { first } else { second };
    Ok(refused(
        alloc,
        file.name.as_str(),
        file.bytes.as_slice(),
        question,
        masked_limits(),
    ))
}

const INPUTS: Asked = Asked {
    option: "--codes",
    given: Role::Codes,
    beside: Role::Beside,
    side: Side::Inputs,
};

const OUTPUTS: Asked = Asked {
    option: "--out-codes",
    given: Role::OutCodes,
    beside: Role::Beside,
    side: Side::Outputs,
};

const SECOND: Asked = Asked {
    option: "--second-codes",
    given: Role::SecondCodes,
    beside: Role::SecondBeside,
    side: Side::Inputs,
};

fn said(alloc: Global, name: &str, text: &[u8]) -> Result<String, Failure> {
    let shape = shape_of(alloc, name, text)?;
    let wires = Grouped(shape.wires);
    let gates = Grouped(shape.gates);
    Ok(format!(in alloc; "{name}: {wires} wires, {gates} gates")?)
}

/// The codes of both blocks, as they were given or lie beside them.
#[derive(Drop)]
struct BlockCodes {
    inputs: Vec<u8>,
    outputs: Vec<u8>,
    second: Vec<u8>,
}

fn block_codes(
    alloc: Global,
    task: &JoinTask,
    files: Files,
    first_inputs: &[u32],
    first_outputs: &[u32],
    second_inputs: &[u32],
) -> Result<BlockCodes, Failure> {
    Ok(BlockCodes {
        inputs: codes(alloc, INPUTS, &task.codes, files, first_inputs)?,
        outputs: codes(alloc, OUTPUTS, &task.out_codes, files, first_outputs)?,
        second: codes(alloc, SECOND, &task.second_codes, files, second_inputs)?,
    })
}

/// The joined text with the codes of both blocks.
fn joined_text(
    alloc: Global,
    first: &Text,
    second: &Text,
    codes: &BlockCodes,
) -> Result<Vec<u8>, Failure> {
    let seam = SeamCodes {
        inputs: codes.inputs.as_slice(),
        outputs: codes.outputs.as_slice(),
        second: codes.second.as_slice(),
    };
    match join(alloc, first.bytes.as_slice(), second.bytes.as_slice(), seam)? {
        Ok(text) => Ok(text),
        Err(question) => Err(refused_join(alloc, first, second, question)?),
    }
}

/// Where the joined netlist and its codes go.
#[derive(Drop)]
struct Destinations {
    out: Option<String>,
    codes_out: Option<String>,
}

fn delivered(
    alloc: Global,
    destinations: Destinations,
    text: Vec<u8>,
    codes: Option<Vec<u8>>,
    is_quiet: bool,
) -> Result<Answer, Failure> {
    let Destinations { out, codes_out } = destinations;
    let mut answer = Answer::new(alloc);
    if let Some(name) = &out {
        if !is_quiet {
            answer.say(said(alloc, name.as_str(), text.as_slice())?.as_str())?;
        }
    }
    match (codes_out, codes) {
        (Some(name), Some(bytes)) => answer.deliver(Some(name), bytes)?,
        (Some(_), None) => answer.remark(
            "no codes are written: those of the second netlist's outputs are not known",
            is_quiet,
        )?,
        (None, _) => {}
    }
    answer.deliver(out, text)?;
    Ok(answer)
}

/// One netlist of two masked blocks, and its file of codes.
pub fn answer(
    alloc: Global,
    task: JoinTask,
    files: Files,
    first: &Text,
    second: &Text,
    is_quiet: bool,
) -> Result<Answer, Failure> {
    let first_shape = shape_of(alloc, first.name.as_str(), first.bytes.as_slice())?;
    let second_shape = shape_of(alloc, second.name.as_str(), second.bytes.as_slice())?;
    let inputs = block_inputs(alloc, first, &first_shape)?;
    let second_inputs = block_inputs(alloc, second, &second_shape)?;
    let outputs = second_shape.outputs.as_slice();
    let codes = block_codes(
        alloc,
        &task,
        files,
        inputs,
        first_shape.outputs.as_slice(),
        second_inputs,
    )?;
    let text = joined_text(alloc, first, second, &codes)?;
    let known = joined_codes(alloc, files, codes.inputs.as_slice(), inputs, outputs)?;
    let JoinTask {
        codes: _,
        out_codes: _,
        second_codes: _,
        out,
        codes_out,
    } = task;
    delivered(
        alloc,
        Destinations { out, codes_out },
        text,
        known,
        is_quiet,
    )
}
