//! Words and JSON that the answers share.

use command_answer::codes::write_by_value;
use command_answer::failure::Failure;
use command_answer::netlists::{refused, refused_because, source_limits};
use netlist::Refusal;
use std::alloc::{AllocError, Global};

/// The number of the first entry above `most`.
fn first_above(list: &[u8], most: u8) -> Option<usize> {
    list.iter().position(|entry| most < *entry)
}

/// The failure of a source that Mask, Mask with fewer changes or Twins refuses.
pub fn refused_source(
    alloc: Global,
    file: &str,
    text: &[u8],
    codes: &[u8],
    wanted: &[u8],
    most: u8,
    question: Refusal,
) -> Result<Failure, AllocError> {
    let words = match (question, first_above(codes, most), first_above(wanted, 3)) {
        (Refusal::Inputs, Some(bit), _) => format!(in alloc;
            "the code of input bit {bit} is above {most}"
        )?,
        (Refusal::Wanted, _, Some(bit)) => format!(in alloc;
            "the code wanted for output bit {bit} is above 3"
        )?,
        _ => return Ok(refused(alloc, file, text, question, source_limits())),
    };
    refused_because(alloc, file, text, question, words.as_str())
}

/// Codes by value as text.
pub fn by_value(alloc: Global, codes: &[u8], widths: &[u32]) -> Result<String, AllocError> {
    let mut text = String::new(alloc);
    write_by_value(&mut text, codes, widths)?;
    Ok(text)
}

/// The text of a netlist, which has ASCII alone.
pub fn text_of(bytes: &[u8]) -> &str {
    str::from_utf8(bytes).unwrap_or("")
}
