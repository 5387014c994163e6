//! `fidrovelj mask`.

ghost use Rattle.std.specs.Prelude.{◌≡◌, false, None, IfOk};
ghost use Rattle.command_answer.specs.Delivered.{Stands};
ghost use Rattle.command_masking.specs.Answers.{IsMasked};
ghost use Rattle.command_mask.specs.Written.{WritesMasked};

use crate::telling::{by_value, refused_source, text_of};
use command_answer::answer::Answer;
use command_answer::codes::{codes_file, codes_given};
use command_answer::failure::Failure;
use command_answer::files::{Files, Text};
use command_answer::grouped::Grouped;
use command_answer::netlists::{fashion_of, shape_of};
use command_lists::codes::Side;
use command_masking::fewer::mask_fewest;
use command_masking::masked::mask;
use command_netlists::shape::Shape;
use command_words::VERSION;
use command_words::plan::{List, MaskTask, Role};
use serde_json::{Value, json};
use std::alloc::{AllocError, Global};

/// The changes and the floor of Mask with fewer changes.
#[derive(Clone, Copy, Debug)]
struct Tally {
    changes: u64,
    floor: u64,
}

/// A masked netlist with all its codes.
#[derive(Drop)]
struct Made {
    text: Vec<u8>,
    input_codes: Vec<u8>,
    output_codes: Vec<u8>,
    tally: Option<Tally>,
}

/// The lists of a call.
#[derive(Drop)]
pub struct Lists {
    /// a code for each input bit
    pub codes: Vec<u8>,
    /// a wanted code for each output bit
    pub wanted: Vec<u8>,
}

fn lists_of(alloc: Global, task: &MaskTask, files: Files, shape: &Shape) -> Result<Lists, Failure> {
    let codes = codes_given(
        alloc,
        "--codes",
        &task.codes,
        files,
        Role::Codes,
        shape.inputs.as_slice(),
        Side::Inputs,
    )?;
    let none = List::Words(String::from_str(alloc, "0")?);
    let wanted = codes_given(
        alloc,
        "--wanted",
        task.wanted.as_ref().unwrap_or(&none),
        files,
        Role::Wanted,
        shape.outputs.as_slice(),
        Side::Outputs,
    )?;
    Ok(Lists { codes, wanted })
}

fn masked(alloc: Global, file: &str, text: &[u8], lists: Lists) -> Result<Made, Failure>
    ensures { IfOk result (λ made. IsMasked text.now lists.codes.items lists.wanted.items made.text.items made.output_codes.items) }
{
    let Lists { codes, wanted } = lists;
    match mask(alloc, text, codes.as_slice(), wanted.as_slice())? {
        Ok(masked) => Ok(Made {
            text: masked.text,
            input_codes: codes,
            output_codes: masked.codes,
            tally: None,
        }),
        Err(question) => Err(refused_source(
            alloc,
            file,
            text,
            codes.as_slice(),
            wanted.as_slice(),
            3,
            question,
        )?),
    }
}

fn masked_fewest(
    alloc: Global,
    file: &str,
    text: &[u8],
    lists: &Lists,
    budget: u64,
) -> Result<Made, Failure> {
    let codes = lists.codes.as_slice();
    let wanted = lists.wanted.as_slice();
    match mask_fewest(alloc, text, codes, wanted, budget)? {
        Ok(fewest) => Ok(Made {
            text: fewest.text,
            input_codes: fewest.input_codes,
            output_codes: fewest.output_codes,
            tally: Some(Tally {
                changes: fewest.changes,
                floor: fewest.floor,
            }),
        }),
        Err(question) => Err(refused_source(alloc, file, text, codes, wanted, 4, question)?),
    }
}

/// What is said of a masked netlist that went to a file.
fn summary(alloc: Global, name: &str, made: &Made, shape: &Shape) -> Result<String, AllocError> {
    let wires = Grouped(shape.wires);
    let gates = Grouped(shape.gates);
    match made.tally {
        Some(Tally { changes, floor }) => {
            format!(in alloc;
                "{name}: {wires} wires, {gates} gates; {changes} mask changes, no choice has fewer than {floor}"
            )
        }
        None => format!(in alloc; "{name}: {wires} wires, {gates} gates"),
    }
}

/// The netlist as a string, where it goes to no file.
fn inline(alloc: Global, made: &Made, is_inline: bool) -> Result<Value, AllocError> {
    if is_inline {
        json!(in alloc; text_of(made.text.as_slice()))
    } else {
        Ok(Value::Null)
    }
}

/// The answer as JSON.
fn object(
    alloc: Global,
    file: &str,
    made: &Made,
    source: &Shape,
    shape: &Shape,
    is_inline: bool,
) -> Result<String, AllocError> {
    let inputs = by_value(alloc, made.input_codes.as_slice(), source.inputs.as_slice())?;
    let outputs = by_value(
        alloc,
        made.output_codes.as_slice(),
        source.outputs.as_slice(),
    )?;
    let text = inline(alloc, made, is_inline)?;
    let changes = made.tally.map(|tally| tally.changes);
    let floor = made.tally.map(|tally| tally.floor);
    let wires = shape.wires as u64;
    let gates = shape.gates as u64;
    let value = json!(in alloc; {
        "version": VERSION,
        "command": "mask",
        "file": file,
        "wires": wires,
        "gates": gates,
        "input_codes": inputs.as_str(),
        "output_codes": outputs.as_str(),
        "mask_changes": changes,
        "floor": floor,
        "netlist": text,
    })?;
    value.to_string(alloc)
}

fn made_of(
    alloc: Global,
    task: &MaskTask,
    file: &str,
    text: &[u8],
    lists: Lists,
) -> Result<Made, Failure>
    ensures { task.now.fewest ≡ None → IfOk result (λ made. IsMasked text.now lists.codes.items lists.wanted.items made.text.items made.output_codes.items) }
{
    match task.fewest {
        Some(budget) => masked_fewest(alloc, file, text, &lists, budget),
        None => masked(alloc, file, text, lists),
    }
}

/// The answer with its files; what is said on standard output where the netlist does not go there.
fn delivered(
    alloc: Global,
    task: MaskTask,
    file: &str,
    made: Made,
    source: &Shape,
    is_json: bool,
    is_quiet: bool,
) -> Result<Answer, Failure>
    ensures { is_json ≡ false → IfOk result (λ a. Stands a made.text.items) }
{
    let MaskTask {
        codes: _,
        wanted: _,
        fewest: _,
        from: _,
        out,
        codes_out,
    } = task;
    let mut answer = Answer::new(alloc);
    let shape = shape_of(alloc, file, made.text.as_slice())?;
    if is_json {
        let line = object(alloc, file, &made, source, &shape, out.is_none())?;
        answer.say(line.as_str())?;
    } else if let Some(name) = &out {
        if !is_quiet {
            let line = summary(alloc, name.as_str(), &made, &shape)?;
            answer.say(line.as_str())?;
        }
    }
    if let Some(name) = codes_out {
        let codes = codes_file(
            alloc,
            made.input_codes.as_slice(),
            source.inputs.as_slice(),
            made.output_codes.as_slice(),
            source.outputs.as_slice(),
        )?;
        answer.deliver(Some(name), codes)?;
    }
    if is_json && out.is_none() {
        return Ok(answer);
    }
    answer.deliver(out, made.text)?;
    Ok(answer)
}

/// What Mask writes for a source under these lists, as an answer: the netlist in its file or printed, and the file of codes.
pub fn told(
    alloc: Global,
    task: MaskTask,
    source: Source,
    lists: Lists,
    is_json: bool,
    is_quiet: bool,
) -> Result<Answer, Failure>
    ensures { task.fewest ≡ None → is_json ≡ false
        → IfOk result (WritesMasked source.entry.text.now lists.codes.items lists.wanted.items) }
{
    let made = made_of(alloc, &task, source.file, source.text, lists)?;
    delivered(
        alloc,
        task,
        source.file,
        made,
        source.shape,
        is_json,
        is_quiet,
    )
}

/// A source: its file's name, its text in Bristol Fashion, and its header.
#[derive(Clone, Copy)]
pub struct Source<'a> {
    /// the file's name
    pub file: &'a str,
    /// the text
    pub text: &'a [u8],
    /// its header
    pub shape: &'a Shape,
}

/// The masked netlist in its file, or on standard output, and the file of codes.
pub fn answer(
    alloc: Global,
    task: MaskTask,
    files: Files,
    netlist: &Text,
    is_json: bool,
    is_quiet: bool,
) -> Result<Answer, Failure> {
    let file = netlist.name.as_str();
    let other = fashion_of(alloc, netlist, task.from)?;
    let text = match &other {
        Some(text) => text.as_slice(),
        None => netlist.bytes.as_slice(),
    };
    let shape = shape_of(alloc, file, text)?;
    let lists = lists_of(alloc, &task, files, &shape)?;
    let source = Source {
        file,
        text,
        shape: &shape,
    };
    told(alloc, task, source, lists, is_json, is_quiet)
}
