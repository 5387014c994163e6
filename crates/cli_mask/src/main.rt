#![tactic(auto)]

// *mask*: reads netlist.txt, inputs.txt and outputs.txt, and prints the output codes and the masked netlist, or the
// question that refuses them.
ghost use Rattle.std.specs.Prelude.{◌+◌, ◌*◌, ◌≤◌, length, take};
ghost use Rattle.program.specs.Programs.{print_mask, mask_program};
ghost use Rattle.cli_mask.specs.Report.{outcome, outcome_of, Answered, Counted, Prints};

use netlist::{Answer, Refusal, Sizes};
use program::lines::{FILE_LIMIT, SMALL_TABLE};
use std::io;
use std::io::Write;

// What is printed: so many bytes of the line, and then so many of the masked text.
#[derive(Drop)]
struct Printed {
    line: usize,
    text: usize,
}

// The tables that the program lends, as long as question 1 asks.
#[derive(Drop)]
struct Tables {
    operands: [u64; SMALL_TABLE],
    results: [u64; SMALL_TABLE],
    wires: [u32; SMALL_TABLE],
    marks: [u8; SMALL_TABLE],
}

// Room for a line: at most three digits for each output code, and at most 64 bytes more, which is room for a refusal.
const LINE: usize = 3 * SMALL_TABLE + 64;

impl Tables {
    fn new() -> Self {
        Tables {
            operands: [0; SMALL_TABLE],
            results: [0; SMALL_TABLE],
            wires: [0; SMALL_TABLE],
            marks: [0; SMALL_TABLE],
        }
    }
}

// The answer to a netlist file's bytes and the two lists.
fn answer(
    netlist: &[u8],
    codes: &[u8],
    wanted: &[u8],
    text: &mut [u8; FILE_LIMIT],
    out_codes: &mut [u8; SMALL_TABLE],
    tables: &mut Tables,
) -> Answer
    ensures { Answered (outcome netlist.now codes.now wanted.now) text.new
        out_codes.new (length wanted.now) result }
{
    if FILE_LIMIT < netlist.len() {
        return Err(Refusal::Length);
    }
    mask::mask(
        netlist,
        codes,
        wanted,
        text,
        out_codes,
        &mut tables.operands,
        &mut tables.results,
        &mut tables.wires,
        &mut tables.marks,
        Sizes::Standard,
    )
}

// What an answer prints, where there are so many output codes.
fn print(line: &mut [u8], text: &[u8], out_codes: &[u8], codes: usize, answer: Answer) -> Printed
    requires { Counted text.now out_codes.now codes answer × (3 * length out_codes.now + 64 ≤ length line.old) }
    ensures { Prints line.new text.now result
        (print_mask (outcome_of text.now (take codes out_codes.now) answer)) }
{
    match answer {
        Ok(n) => Printed {
            line: program::lines::digits(line, &out_codes[..codes]),
            text: n,
        },
        Err(question) => Printed {
            line: program::lines::refused(line, question),
            text: 0,
        },
    }
}

// What the program prints, from the bytes of the three files; each list takes the place of its file's bytes.
fn report(
    line: &mut [u8; LINE],
    text: &mut [u8; FILE_LIMIT],
    out_codes: &mut [u8; SMALL_TABLE],
    netlist: &[u8],
    inputs: &mut [u8],
    outputs: &mut [u8],
    tables: &mut Tables,
) -> Printed
    ensures { Prints line.new text.new result
        (mask_program netlist.now inputs.old outputs.old) }
{
    let codes = program::lines::list(inputs);
    let wanted = program::lines::list(outputs);
    let a = answer(netlist, codes, wanted, text, out_codes, tables);
    print(line, text, out_codes, wanted.len(), a)
}

fn main(rt: HostRuntime) -> io::Result<()> {
    // one byte more than is taken, to notice a longer file
    let mut netlist = [0u8; FILE_LIMIT + 1];
    let mut inputs = [0u8; FILE_LIMIT];
    let mut outputs = [0u8; FILE_LIMIT];
    let mut text = [0u8; FILE_LIMIT];
    let mut out_codes = [0u8; SMALL_TABLE];
    let mut tables = Tables::new();
    let mut line = [0u8; LINE];
    let bytes = program::files::read(&rt, b"netlist.txt", &mut netlist);
    let codes = program::files::read(&rt, b"inputs.txt", &mut inputs);
    let wanted = program::files::read(&rt, b"outputs.txt", &mut outputs);
    let p = report(
        &mut line,
        &mut text,
        &mut out_codes,
        &netlist[..bytes],
        &mut inputs[..codes],
        &mut outputs[..wanted],
        &mut tables,
    );
    let n = p.line;
    let m = p.text;
    io::writer(&rt).write_all(&line[..n])?;
    io::writer(&rt).write_all(&text[..m])
}
