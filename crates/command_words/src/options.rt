//! The arguments that several subcommands have.

use clap::{Arg, ArgAction, value_parser};
use std::alloc::Global;

/// The names of the notations, as `--from` takes them.
pub const FORMATS: [&str; 5] = ["fashion", "older", "aiger", "equations", "blif"];

/// The names of the notations that are written.
pub const WRITTEN_FORMATS: [&str; 5] = ["fashion", "older", "blif", "verilog", "c"];

/// A netlist's file.
pub fn file<'a>(alloc: Global, id: &'a str) -> Arg<'a> {
    Arg::new(alloc, id)
        .required(true)
        .value_name(id)
        .help("A netlist, or - for standard input")
}

/// A list of codes.
pub fn codes<'a>(alloc: Global, id: &'a str, help: &'a str) -> Arg<'a> {
    Arg::new(alloc, id).long(id).value_name("CODES").help(help)
}

/// The file of the result.
pub fn out<'a>(alloc: Global) -> Arg<'a> {
    Arg::new(alloc, "out")
        .short('o')
        .long("out")
        .value_name("FILE")
        .help("Write the netlist to FILE, in place when it is whole; - or none: standard output")
}

/// The file of the codes.
pub fn codes_out<'a>(alloc: Global) -> Arg<'a> {
    Arg::new(alloc, "codes-out")
        .long("codes-out")
        .value_name("FILE")
        .help(
            "Write input and output codes to FILE [default: beside the file of -o, with the suffix .codes]",
        )
}

/// The notation of a netlist that is read.
pub fn from<'a>(alloc: Global) -> Arg<'a> {
    Arg::new(alloc, "from")
        .long("from")
        .value_name("NOTATION")
        .value_parser(FORMATS.as_slice())
        .help("The netlist's notation [default: by its suffix, else by its first bytes]")
}

/// The notation of a netlist that is written.
pub fn to<'a>(alloc: Global) -> Arg<'a> {
    Arg::new(alloc, "to")
        .long("to")
        .value_name("NOTATION")
        .value_parser(WRITTEN_FORMATS.as_slice())
        .help("The notation to write [default: fashion]")
}

/// A whole number.
pub fn budget<'a>(alloc: Global, id: &'a str, help: &'a str) -> Arg<'a> {
    Arg::new(alloc, id)
        .long(id)
        .value_name("N")
        .value_parser(value_parser!(u64))
        .help(help)
}

/// A word that is there or not.
pub fn flag<'a>(alloc: Global, id: &'a str, help: &'a str) -> Arg<'a> {
    Arg::new(alloc, id)
        .long(id)
        .action(ArgAction::SetTrue)
        .help(help)
}

/// JSON in place of words.
pub fn json<'a>(alloc: Global) -> Arg<'a> {
    flag(alloc, "json", "Tell the result as one JSON object")
}

/// No remarks.
pub fn quiet<'a>(alloc: Global) -> Arg<'a> {
    flag(alloc, "quiet", "Tell the result alone, and no remark")
}
