#![tactic(auto)]

// *run*: reads netlist.txt and inputs.txt, whose entries are bits, and prints the netlist's output bits, or the
// question that refuses it.
ghost use Rattle.std.specs.Prelude.{◌+◌, ◌*◌, ◌≤◌, length};
ghost use Rattle.program.specs.Programs.{print_run, run_program};
ghost use Rattle.netlist.specs.Services.{outcome_of};
ghost use Rattle.program.specs.Front.{Front, Counted, Answered};
ghost use Rattle.cli_run.specs.Report.{outcome};

use netlist::{Answer, Refusal, Sizes};
use program::lines::{FILE_LIMIT, LARGE_TABLE};
use std::io;
use std::io::Write;

// The tables that the program lends, as long as question 1 asks.
#[derive(Drop)]
struct Tables {
    operands: [u64; LARGE_TABLE],
    results: [u64; LARGE_TABLE],
    marks: [u8; LARGE_TABLE],
    words: [u64; LARGE_TABLE],
}

impl Tables {
    fn new() -> Self {
        Tables {
            operands: [0; LARGE_TABLE],
            results: [0; LARGE_TABLE],
            marks: [0; LARGE_TABLE],
            words: [0; LARGE_TABLE],
        }
    }
}

// The answer, from the bytes of the two files; the list takes the place of its file's bytes.
fn answer(
    netlist: &[u8],
    inputs: &mut [u8],
    bits: &mut [u8; LARGE_TABLE],
    tables: &mut Tables,
) -> Answer
    ensures { Answered (outcome netlist.now inputs.old) bits.new result }
{
    if FILE_LIMIT < netlist.len() {
        return Err(Refusal::Length);
    }
    run::run(
        netlist,
        program::lines::list(inputs),
        bits,
        &mut tables.operands,
        &mut tables.results,
        &mut tables.marks,
        &mut tables.words,
        Sizes::Standard,
    )
}

// The line that an answer prints.
fn print(out: &mut [u8], bits: &[u8], answer: Answer) -> usize
    requires { Counted bits.now answer × (3 * length bits.now + 64 ≤ length out.old) }
    ensures { Front out.new result (print_run (outcome_of bits.now answer)) }
{
    match answer {
        Ok(n) => program::lines::digits(out, &bits[..n]),
        Err(question) => program::lines::refused(out, question),
    }
}

// What the program prints, from the bytes of the two files.
fn report(
    out: &mut [u8; FILE_LIMIT],
    netlist: &[u8],
    inputs: &mut [u8],
    bits: &mut [u8; LARGE_TABLE],
    tables: &mut Tables,
) -> usize
    ensures { Front out.new result (run_program netlist.now inputs.old) }
{
    let a = answer(netlist, inputs, bits, tables);
    print(out, bits, a)
}

fn main(rt: HostRuntime) -> io::Result<()> {
    // one byte more than is taken, to notice a longer file
    let mut netlist = [0u8; FILE_LIMIT + 1];
    let mut inputs = [0u8; FILE_LIMIT];
    let mut bits = [0u8; LARGE_TABLE];
    let mut tables = Tables::new();
    let mut out = [0u8; FILE_LIMIT];
    let bytes = program::files::read(&rt, b"netlist.txt", &mut netlist);
    let entries = program::files::read(&rt, b"inputs.txt", &mut inputs);
    let n = report(
        &mut out,
        &netlist[..bytes],
        &mut inputs[..entries],
        &mut bits,
        &mut tables,
    );
    io::writer(&rt).write_all(&out[..n])
}
