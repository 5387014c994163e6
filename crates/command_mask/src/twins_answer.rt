//! `fidrovelj twins`.

use crate::telling::refused_source;
use command_answer::answer::Answer;
use command_answer::codes::codes_given;
use command_answer::failure::Failure;
use command_answer::files::{Files, Text};
use command_answer::netlists::{fashion_of, shape_of};
use command_lists::codes::Side;
use command_masking::twins::{TwinLists, twins};
use command_words::VERSION;
use command_words::plan::{Role, TwinsTask};
use serde_json::{Value, json};
use std::alloc::{AllocError, Global};

/// A line for each source wire: its number, the masked wire, the code.
fn lines(alloc: Global, found: &TwinLists) -> Result<Vec<u8>, AllocError> {
    let mut text = String::new(alloc);
    for (wire, (twin, code)) in found.wires.iter().zip(found.codes.iter()).enumerate() {
        writeln!(text, "{wire} {twin} {code}")?;
    }
    Ok(text.into_bytes())
}

fn object(alloc: Global, file: &str, found: &TwinLists) -> Result<String, AllocError> {
    let mut list = Vec::new(alloc);
    for (twin, code) in found.wires.iter().zip(found.codes.iter()) {
        let wire = u64::from(*twin);
        let code = u64::from(*code);
        list.push(json!(in alloc; {"wire": wire, "code": code})?)?;
    }
    let value = json!(in alloc; {
        "version": VERSION,
        "command": "twins",
        "file": file,
        "twins": Value::Array(list),
    })?;
    value.to_string(alloc)
}

/// Where each source wire stands in the masked netlist, and under which code.
pub fn answer(
    alloc: Global,
    task: TwinsTask,
    files: Files,
    netlist: &Text,
    is_json: bool,
) -> Result<Answer, Failure> {
    let file = netlist.name.as_str();
    let other = fashion_of(alloc, netlist, task.from)?;
    let text = match &other {
        Some(text) => text.as_slice(),
        None => netlist.bytes.as_slice(),
    };
    let shape = shape_of(alloc, file, text)?;
    let widths = shape.inputs.as_slice();
    let codes = codes_given(
        alloc,
        "--codes",
        &task.codes,
        files,
        Role::Codes,
        widths,
        Side::Inputs,
    )?;
    let mut answer = Answer::new(alloc);
    match twins(alloc, text, codes.as_slice())? {
        Ok(found) if is_json => answer.say(object(alloc, file, &found)?.as_str())?,
        Ok(found) => answer.deliver(None, lines(alloc, &found)?)?,
        Err(question) => return Err(refused_source(
            alloc,
            file,
            text,
            codes.as_slice(),
            &[],
            3,
            question,
        )?),
    }
    Ok(answer)
}
