//! The command line: each subcommand with its arguments and an example.

use crate::options::{budget, codes, codes_out, file, flag, from, json, out, quiet, to};
use crate::stop::VERSION;
use clap::{Arg, Command};
use std::alloc::{AllocError, Global};

const CODES: &str =
    "A mask code for each input bit: one digit for all, a digit for each, 0=1,1=2 by value, 256*1, or @FILE; \
1 is mask bit m0, 2 is m1, 3 both, 0 a public bit";

fn mask<'a>(alloc: Global) -> Result<Command<'a>, AllocError> {
    Command::new(alloc, "mask")
        .about("Rewrites a netlist so that every bit travels under a mask")
        .after_help(
            "Example:\n  fidrovelj mask sbox.txt --codes 1 -o sbox_m.txt\n\
            writes sbox_m.txt, and the codes of its inputs and outputs to sbox_m.codes.",
        )
        .arg(file(alloc, "FILE"))?
        .arg(codes(alloc, "codes", CODES).required(true))?
        .arg(codes(
            alloc,
            "wanted",
            "A code for each output bit, in the same notation; 0 for whichever falls",
        ))?
        .arg(budget(
            alloc,
            "fewest",
            "Try so many choices for the fewest mask changes; code 4 leaves an input's code free",
        ))?
        .arg(out(alloc))?
        .arg(codes_out(alloc))?
        .arg(from(alloc))?
        .arg(json(alloc))?
        .arg(quiet(alloc))
}

fn check<'a>(alloc: Global) -> Result<Command<'a>, AllocError> {
    let pairs = Arg::new(alloc, "pairs")
        .long("pairs")
        .value_name("FILE")
        .help("Check pairs of wires besides, two wire numbers a line");
    let exact = flag(
        alloc,
        "exact",
        "Try all settings of at most twelve input bits",
    )
    .conflicts_with("wide")?
    .conflicts_with("certify")?;
    let wide = flag(
        alloc,
        "wide",
        "Check each wire over the inputs that reach it, at most twelve",
    )
    .conflicts_with("certify")?;
    Command::new(alloc, "check")
        .about("Says whether a masked netlist leaks on one wire")
        .after_help(
            "Example:\n  fidrovelj check sbox_m.txt\n\
            takes the codes from sbox_m.codes. The status is 0 where it is clean, 1 at a leak or a bad pair,\n\
            2 where something is refused, 3 where it is not decided.",
        )
        .arg(file(alloc, "FILE"))?
        .arg(codes(alloc, "codes", CODES))?
        .arg(pairs)?
        .arg(exact)?
        .arg(wide)?
        .arg(flag(alloc, "certify", "Certify, for any number of input bits"))?
        .arg(budget(
            alloc,
            "budget",
            "The most settings that the check of many inputs may try [default: 20000000]",
        ))?
        .arg(from(alloc))?
        .arg(json(alloc))?
        .arg(quiet(alloc))
}

fn run<'a>(alloc: Global) -> Result<Command<'a>, AllocError> {
    let values = Arg::new(alloc, "VALUES").help(
        "Input bits, first bit first; or for each value 0x and hexadecimal digits, parted by commas",
    );
    let vectors = Arg::new(alloc, "vectors")
        .long("vectors")
        .value_name("FILE")
        .conflicts_with("VALUES")?
        .help("Input values a line, and if wanted = and the output values that are expected");
    Command::new(alloc, "run")
        .about("Gives the output bits of a netlist")
        .after_help(
            "Example:\n  fidrovelj run sbox.txt 0x53\n\
            prints the output values in the notation of the input values. With --vectors the status is 1\n\
            where an output is not the expected one.",
        )
        .arg(file(alloc, "FILE"))?
        .arg(values)?
        .arg(vectors)?
        .arg(from(alloc))?
        .arg(quiet(alloc))
}

fn convert<'a>(alloc: Global) -> Result<Command<'a>, AllocError> {
    Command::new(alloc, "convert")
        .about("Writes a netlist in its written form, or in another notation")
        .after_help(
            "Examples:\n  fidrovelj convert sbox.aag -o sbox.txt\n  fidrovelj convert sbox_m.txt --to verilog -o sbox_m.v\n\
            writes a module with (* keep *) on every wire, which a synthesis tool leaves as they are.",
        )
        .arg(file(alloc, "FILE"))?
        .arg(out(alloc))?
        .arg(from(alloc))?
        .arg(to(alloc))?
        .arg(
            Arg::new(alloc, "cells")
                .long("cells")
                .value_name("FILE")
                .help("The models of the cells that a BLIF netlist uses"),
        )?
        .arg(
            Arg::new(alloc, "masks")
                .long("masks")
                .value_name("NAME")
                .help(
                    "The input of a BLIF netlist that is the mask pair: it becomes the last value",
                ),
        )?
        .arg(
            Arg::new(alloc, "module")
                .long("module")
                .value_name("NAME")
                .help("The name of the written module, or of the function in C"),
        )?
        .arg(flag(
            alloc,
            "no-keep",
            "Leave out (* keep *), and in C the barriers",
        ))?
        .arg(quiet(alloc))
}

fn same<'a>(alloc: Global) -> Result<Command<'a>, AllocError> {
    Command::new(alloc, "same")
        .about("Says whether two netlists compute the same")
        .after_help(
            "Example:\n  fidrovelj same sbox_m.txt synth.blif\n\
            tries all settings of at most twenty input bits, else random ones. The status is 1 at a difference.",
        )
        .arg(file(alloc, "FIRST"))?
        .arg(file(alloc, "SECOND"))?
        .arg(budget(
            alloc,
            "settings",
            "How many random settings are tried [default: 65536]",
        ))?
        .arg(budget(alloc, "seed", "What picks them [default: 1]"))?
        .arg(from(alloc))?
        .arg(quiet(alloc))
}

fn join<'a>(alloc: Global) -> Result<Command<'a>, AllocError> {
    Command::new(alloc, "join")
        .about(
            "Makes one netlist of two masked blocks, outputs of the first into inputs of the second",
        )
        .after_help(
            "Example:\n  fidrovelj join a_m.txt b_m.txt -o ab_m.txt\ntakes the codes from a_m.codes and b_m.codes.",
        )
        .arg(file(alloc, "FIRST"))?
        .arg(file(alloc, "SECOND"))?
        .arg(codes(alloc, "codes", "The first netlist's input codes"))?
        .arg(codes(alloc, "out-codes", "The first netlist's output codes"))?
        .arg(codes(alloc, "second-codes", "The second netlist's input codes"))?
        .arg(out(alloc))?
        .arg(codes_out(alloc))?
        .arg(quiet(alloc))
}

fn info<'a>(alloc: Global) -> Result<Command<'a>, AllocError> {
    Command::new(alloc, "info")
        .about("Tells what a netlist is made of")
        .after_help("Example:\n  fidrovelj info sbox.txt --json")
        .arg(file(alloc, "FILE"))?
        .arg(from(alloc))?
        .arg(json(alloc))?
        .arg(quiet(alloc))
}

fn twins<'a>(alloc: Global) -> Result<Command<'a>, AllocError> {
    Command::new(alloc, "twins")
        .about(
            "Tells where each wire of a source stands in the masked netlist, and under which code",
        )
        .after_help(
            "Example:\n  fidrovelj twins sbox.txt --codes 1\n\
            prints a line for each wire: its number, the masked wire, the code.",
        )
        .arg(file(alloc, "FILE"))?
        .arg(codes(alloc, "codes", CODES).required(true))?
        .arg(from(alloc))?
        .arg(json(alloc))?
        .arg(quiet(alloc))
}

fn session<'a>(alloc: Global) -> Result<Command<'a>, AllocError> {
    let inputs = Arg::new(alloc, "inputs")
        .long("inputs")
        .value_name("WIDTHS")
        .required(true)
        .help("The widths of the input values, parted by commas");
    Command::new(alloc, "session")
        .about("Reads gates from standard input, and answers each with its masked gates")
        .after_help(
            "Example:\n  printf 'XOR 0 1\\nundo\\nAND 0 1\\ntext 1\\n' | fidrovelj session --inputs 1,1 --codes 12\n\
            Steps: XOR A B, AND A B, INV A, EQW A, EQ V; undo; text WIDTHS; masked WIDTHS.",
        )
        .arg(inputs)?
        .arg(codes(alloc, "codes", CODES).required(true))?
        .arg(quiet(alloc))
}

/// The whole command.
pub fn all<'a>(alloc: Global) -> Result<Command<'a>, AllocError> {
    Command::new(alloc, "fidrovelj")
        .about("Masks netlists of one-bit gates, and checks that no wire leaks")
        .version(VERSION)
        .subcommand_required(true)
        .arg_required_else_help(true)
        .subcommand(mask(alloc)?)?
        .subcommand(check(alloc)?)?
        .subcommand(run(alloc)?)?
        .subcommand(convert(alloc)?)?
        .subcommand(join(alloc)?)?
        .subcommand(info(alloc)?)?
        .subcommand(twins(alloc)?)?
        .subcommand(same(alloc)?)?
        .subcommand(session(alloc)?)
}
