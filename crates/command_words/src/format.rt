//! The notation of a netlist: by its name, its file's suffix, or its first bytes.

use crate::plan::Format;

/// The notation with this name.
pub fn format_named(name: &str) -> Option<Format> {
    match name {
        "fashion" => Some(Format::Fashion),
        "older" => Some(Format::Older),
        "aiger" => Some(Format::Aiger),
        "equations" => Some(Format::Equations),
        "blif" => Some(Format::Blif),
        "verilog" => Some(Format::Verilog),
        "c" => Some(Format::C),
        _ => None,
    }
}

/// The notation that a file's suffix tells.
pub fn format_of_name(name: &str) -> Option<Format> {
    let (_, suffix) = name.rsplit_once('.')?;
    match suffix {
        "aag" => Some(Format::Aiger),
        "v" => Some(Format::Equations),
        "old" => Some(Format::Older),
        "blif" => Some(Format::Blif),
        _ => None,
    }
}

/// The notation that the first bytes tell: AIGER, equations and BLIF begin with a word of their own, and all other
/// texts count as Fashion.
pub fn format_of_text(text: &[u8]) -> Format {
    if text.starts_with(b"aag ") {
        Format::Aiger
    } else if text.trim_ascii_start().starts_with(b"module ") {
        Format::Equations
    } else if text.trim_ascii_start().starts_with(b".model") {
        Format::Blif
    } else {
        Format::Fashion
    }
}

/// The notation of a netlist: as it was said, else by the suffix, else by the first bytes.
pub fn format_of(said: Option<Format>, name: &str, text: &[u8]) -> Format {
    said.or(format_of_name(name))
        .unwrap_or(format_of_text(text))
}
