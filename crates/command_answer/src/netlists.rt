//! The netlist of a plan: read in whichever notation it is in, and its refusals in words.

use crate::failure::Failure;
use crate::files::Text;
use circuit::Circuit;
use circuit::fashion::{self, FashionError};
use command_netlists::conversions::{Converted, Rewriting, from_aiger, from_equations, rewrite};
use command_netlists::shape::{Shape, read_shape};
use command_refusals::refused_text::{refused_in_words, refused_text};
use command_words::format::format_of;
use command_words::plan::Format;
use netlist::{Limits, Refusal, Sizes};
use std::alloc::{AllocError, Global};

/// The largest limits of Mask's services.
pub fn source_limits() -> Limits {
    Sizes::Whole.source_limits()
}

/// The largest limits of the other services.
pub fn masked_limits() -> Limits {
    Sizes::Whole.masked_limits()
}

/// The failure of a netlist that a question refuses.
pub fn refused(
    alloc: Global,
    file: &str,
    text: &[u8],
    question: Refusal,
    limits: Limits,
) -> Failure {
    match refused_text(alloc, file, text, question, limits) {
        Ok(refused) => Failure::Refused(refused),
        Err(_) => Failure::Memory,
    }
}

/// The failure of a netlist that a question refuses, in words of the caller's.
pub fn refused_because(
    alloc: Global,
    file: &str,
    text: &[u8],
    question: Refusal,
    words: &str,
) -> Result<Failure, AllocError> {
    let words = String::from_str(alloc, words)?;
    Ok(Failure::Refused(refused_in_words(alloc, file, question, words, text)?))
}

/// A netlist in another notation, as Fashion; none where it is Fashion already.
fn converted(alloc: Global, format: Format, bytes: &[u8]) -> Result<Option<Converted>, AllocError> {
    Ok(match format {
        Format::Fashion => None,
        Format::Older => Some(rewrite(alloc, Rewriting::FromOlder, bytes)?),
        Format::Aiger => Some(from_aiger(alloc, bytes)?),
        Format::Equations => Some(from_equations(alloc, bytes)?),
        Format::Blif | Format::Verilog | Format::C => None,
    })
}

/// The circuit of a BLIF file, with the models of its cells and the name of the input that is the mask pair.
pub fn blif_of(
    alloc: Global,
    file: &Text,
    cells: Option<&Text>,
    masks: Option<&str>,
) -> Result<Circuit, Failure> {
    let text = text_of(alloc, file)?;
    let cells = match cells {
        Some(file) => Some(text_of(alloc, file)?),
        None => None,
    };
    match blif::read::read(alloc, text, cells, masks) {
        Ok(circuit) => Ok(circuit),
        Err(error) => {
            let name = file.name.as_str();
            Err(Failure::Words(format!(in alloc; "{name}: {error}")?))
        }
    }
}

/// The characters of a file.
fn text_of<'a>(alloc: Global, file: &'a Text) -> Result<&'a str, Failure> {
    match str::from_utf8(file.bytes.as_slice()) {
        Ok(text) => Ok(text),
        Err(_) => {
            let name = file.name.as_str();
            Err(Failure::Words(format!(in alloc; "{name}: the file is no UTF-8 text")?))
        }
    }
}

/// The circuit of a netlist in Bristol Fashion.
pub fn circuit_of(alloc: Global, file: &str, text: &[u8]) -> Result<Circuit, Failure> {
    match fashion::read(alloc, text) {
        Ok(circuit) => Ok(circuit),
        Err(FashionError::Memory) => Err(Failure::Memory),
        Err(FashionError::Refused(question)) => Err(refused(
            alloc,
            file,
            text,
            question,
            masked_limits(),
        )),
    }
}

/// The text of a file's netlist in Bristol Fashion, where it is written in another notation; none where it is Fashion
/// already.
pub fn fashion_of(
    alloc: Global,
    file: &Text,
    said: Option<Format>,
) -> Result<Option<Vec<u8>>, Failure> {
    let bytes = file.bytes.as_slice();
    let name = file.name.as_str();
    let format = format_of(said, name, bytes);
    if format == Format::Blif {
        let circuit = blif_of(alloc, file, None, None)?;
        return Ok(Some(fashion::write(alloc, &circuit)?.into_bytes()));
    }
    match converted(alloc, format, bytes)? {
        None => Ok(None),
        Some(Ok(text)) => Ok(Some(text)),
        Some(Err(question)) => Err(refused_elsewhere(alloc, name, bytes, question)),
    }
}

/// The failure of a text in another notation, in which no place is looked for.
fn refused_elsewhere(alloc: Global, file: &str, text: &[u8], question: Refusal) -> Failure {
    match refused_because(alloc, file, text, question, question.words()) {
        Ok(failure) => failure,
        Err(_) => Failure::Memory,
    }
}

/// The header of a netlist in Fashion, or the failure of a text that has none.
pub fn shape_of(alloc: Global, file: &str, text: &[u8]) -> Result<Shape, Failure> {
    match read_shape(alloc, text)? {
        Ok(shape) => Ok(shape),
        Err(question) => Err(refused(alloc, file, text, question, masked_limits())),
    }
}
