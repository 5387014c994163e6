//! Codes of a plan: given as words, in a file, or beside the netlist; and the file of codes that is written.

use crate::failure::Failure;
use crate::files::{Files, Text};
use command_lists::codes::{Side, parse, resolve};
use command_lists::failure::ListError;
use command_words::plan::{List, Role};
use std::alloc::{AllocError, Global};

/// The part of a file of codes that begins a line with this word; none where no line does.
fn section<'a>(text: &'a str, word: &str) -> Option<&'a str> {
    for line in text.lines() {
        if let Some(rest) = line.strip_prefix(word) {
            if rest.starts_with(' ') {
                return Some(rest);
            }
        }
    }
    None
}

fn word_of(side: Side) -> &'static str {
    match side {
        Side::Inputs => "inputs",
        Side::Outputs => "outputs",
    }
}

fn failed(alloc: Global, place: &str, error: ListError) -> Failure {
    match String::from_str(alloc, place) {
        Ok(place) => Failure::List(place, error),
        Err(_) => Failure::Memory,
    }
}

/// The codes in a text, for values of these widths.
pub fn codes_in(
    alloc: Global,
    place: &str,
    text: &str,
    widths: &[u32],
    side: Side,
) -> Result<Vec<u8>, Failure> {
    let codes = match parse(alloc, text) {
        Ok(codes) => codes,
        Err(error) => return Err(failed(alloc, place, error)),
    };
    match resolve(alloc, &codes, widths, side) {
        Ok(list) => Ok(list),
        Err(error) => Err(failed(alloc, place, error)),
    }
}

/// The codes of a file: those of its line `inputs` or `outputs`, or all of it where it has neither.
pub fn codes_of_file(
    alloc: Global,
    file: &Text,
    widths: &[u32],
    side: Side,
) -> Result<Vec<u8>, Failure> {
    let place = file.name.as_str();
    match str::from_utf8(file.bytes.as_slice()) {
        Ok(text) => {
            let part = section(text, word_of(side)).unwrap_or(text);
            codes_in(alloc, place, part, widths, side)
        }
        Err(_) => Err(Failure::Words(format!(in alloc; "{place}: a file of codes is text")?)),
    }
}

/// The codes of a list that was given, for values of these widths; `option` names the word of the command line.
pub fn codes_given(
    alloc: Global,
    option: &str,
    list: &List,
    files: Files,
    role: Role,
    widths: &[u32],
    side: Side,
) -> Result<Vec<u8>, Failure> {
    match (list, files.get(role)) {
        (List::Words(words), _) => codes_in(alloc, option, words.as_str(), widths, side),
        (List::File, Some(file)) => codes_of_file(alloc, file, widths, side),
        (List::File, None) => Err(Failure::Words(format!(in alloc; "{option}: there is no file")?)),
    }
}

/// Whether all entries are the same.
fn is_even(codes: &[u8]) -> bool {
    match codes.first() {
        Some(first) => codes.iter().all(|code| code == first),
        None => true,
    }
}

fn push_codes(text: &mut String, codes: &[u8]) -> Result<(), AllocError> {
    let shown = if is_even(codes) {
        1.min(codes.len())
    } else {
        codes.len()
    };
    for code in &codes[..shown] {
        text.push(char::from(b'0' + code % 10))?;
    }
    Ok(())
}

/// Codes by value, as a file of codes has them.
pub fn write_by_value(text: &mut String, codes: &[u8], widths: &[u32]) -> Result<(), AllocError> {
    let mut rest = codes;
    for (value, width) in widths.iter().enumerate() {
        if 0 < value {
            text.push(',')?;
        }
        write!(text, "{value}=")?;
        let (own, others) = rest.split_at((*width as usize).min(rest.len()));
        push_codes(text, own)?;
        rest = others;
    }
    Ok(())
}

/// The file of codes beside a masked netlist: the codes of its inputs and of its outputs, by value.
pub fn codes_file(
    alloc: Global,
    inputs: &[u8],
    input_widths: &[u32],
    outputs: &[u8],
    output_widths: &[u32],
) -> Result<Vec<u8>, AllocError> {
    let mut text = String::new(alloc);
    text.push_str("inputs ")?;
    write_by_value(&mut text, inputs, input_widths)?;
    text.push_str("\noutputs ")?;
    write_by_value(&mut text, outputs, output_widths)?;
    text.push('\n')?;
    Ok(text.into_bytes())
}
