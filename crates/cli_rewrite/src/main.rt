#![tactic(auto)]

// *rewrite*: reads netlist.txt and prints the same netlist in the written form, or the question that refuses it.
ghost use Rattle.std.specs.Prelude.{◌≤◌, length};
ghost use Rattle.program.specs.Programs.{print_rewrite, rewrite_program};
ghost use Rattle.netlist.specs.Services.{outcome_of};
ghost use Rattle.program.specs.Front.{Front, Counted, Answered};
ghost use Rattle.cli_rewrite.specs.Report.{outcome};

use netlist::{Answer, Refusal, Sizes};
use program::lines::{FILE_LIMIT, LARGE_TABLE};
use std::io;
use std::io::Write;

// As long as the longest text, so that question 14 refuses none.
const LONGEST_TEXT: usize = 500000;

// The tables that the program lends, as long as question 1 asks.
#[derive(Drop)]
struct Tables {
    operands: [u64; LARGE_TABLE],
    results: [u64; LARGE_TABLE],
    marks: [u8; LARGE_TABLE],
}

impl Tables {
    fn new() -> Self {
        Tables {
            operands: [0; LARGE_TABLE],
            results: [0; LARGE_TABLE],
            marks: [0; LARGE_TABLE],
        }
    }
}

// The answer to the file's bytes.
fn answer(netlist: &[u8], out: &mut [u8; LONGEST_TEXT], tables: &mut Tables) -> Answer
    ensures { Answered (outcome netlist.now) out.new result }
{
    if FILE_LIMIT < netlist.len() {
        return Err(Refusal::Length);
    }
    convert::rewrite::rewrite(
        netlist,
        out,
        &mut tables.operands,
        &mut tables.results,
        &mut tables.marks,
        Sizes::Standard,
    )
}

// What an answer prints: the text that stands in the buffer, or a refusal's line in its place.
fn print(out: &mut [u8], answer: Answer) -> usize
    requires { Counted out.old answer × (64 ≤ length out.old) }
    ensures { Front out.new result (print_rewrite (outcome_of out.old answer)) }
{
    match answer {
        Ok(n) => n,
        Err(question) => program::lines::refused(out, question),
    }
}

// What the program prints, from the file's bytes.
fn report(out: &mut [u8; LONGEST_TEXT], netlist: &[u8], tables: &mut Tables) -> usize
    ensures { Front out.new result (rewrite_program netlist.now) }
{
    let a = answer(netlist, out, tables);
    print(out, a)
}

fn main(rt: HostRuntime) -> io::Result<()> {
    // one byte more than is taken, to notice a longer file
    let mut netlist = [0u8; FILE_LIMIT + 1];
    let mut out = [0u8; LONGEST_TEXT];
    let mut tables = Tables::new();
    let bytes = program::files::read(&rt, b"netlist.txt", &mut netlist);
    let n = report(&mut out, &netlist[..bytes], &mut tables);
    io::writer(&rt).write_all(&out[..n])
}
