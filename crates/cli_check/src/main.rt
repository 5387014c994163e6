#![tactic(auto)]

// *check*: reads netlist.txt and inputs.txt, and prints whether the netlist is clean under those codes, or its leak, or
// the question that refuses it.
ghost use Rattle.std.specs.Prelude.{◌≡◌, [], ◌≤◌, length, take};
ghost use Rattle.netlist.specs.declared.Sizes.TheVariants.{Standard};
ghost use Rattle.netlist.specs.Netlist.{masked_limits as limits_of_masked};
ghost use Rattle.program.specs.Programs.{readable, list_file, print_check, check_program};
ghost use Rattle.masking.specs.Calls.{check_call};
ghost use Rattle.writer.specs.Wrote.{Wrote};
ghost use Rattle.checker.specs.Verdict.{outcome_of};

use checker::judge::Checked;
use netlist::{Refusal, Sizes};
use program::lines::{FILE_LIMIT, LARGE_TABLE};
use std::io;
use std::io::Write;

// The tables that the program lends, as long as question 1 asks.
#[derive(Drop)]
struct Tables {
    operands: [u64; LARGE_TABLE],
    results: [u64; LARGE_TABLE],
    marks: [u8; LARGE_TABLE],
    words: [u64; LARGE_TABLE],
    base: [u64; LARGE_TABLE],
}

// Room for the longest line, a leak's: a word, and four numbers of at most twenty digits with a space before each.
const LINE: usize = 128;

impl Tables {
    fn new() -> Self {
        Tables {
            operands: [0; LARGE_TABLE],
            results: [0; LARGE_TABLE],
            marks: [0; LARGE_TABLE],
            words: [0; LARGE_TABLE],
            base: [0; LARGE_TABLE],
        }
    }
}

// The answer, from the bytes of the two files; the list takes the place of its file's bytes.
fn answer(netlist: &[u8], inputs: &mut [u8], tables: &mut Tables) -> Checked
    ensures { outcome_of result ≡ readable netlist.now
        (check_call (limits_of_masked Standard) [] netlist.now (list_file inputs.old)) }
{
    if FILE_LIMIT < netlist.len() {
        return Err(Refusal::Length);
    }
    checker::check(
        netlist,
        program::lines::list(inputs),
        &mut tables.operands,
        &mut tables.results,
        &mut tables.marks,
        &mut tables.words,
        &mut tables.base,
        Sizes::Standard,
    )
}

// The line that an answer prints.
fn print(out: &mut [u8], answer: Checked) -> usize
    ensures { Wrote out.old 0 (print_check (outcome_of answer)) out.new result }
{
    match answer {
        Ok(None) => program::lines::clean(out),
        Ok(Some(leak)) => program::lines::leak(
            out,
            leak.wire,
            leak.setting as usize,
            leak.base as usize,
            leak.own as usize,
        ),
        Err(question) => program::lines::refused(out, question),
    }
}

// What the program prints, from the bytes of the two files.
fn report(out: &mut [u8; LINE], netlist: &[u8], inputs: &mut [u8], tables: &mut Tables) -> usize
    ensures { (result ≤ length out.new) × (take result out.new ≡ check_program netlist.now inputs.old) }
{
    let a = answer(netlist, inputs, tables);
    print(out, a)
}

fn main(rt: HostRuntime) -> io::Result<()> {
    // one byte more than is taken, to notice a longer file
    let mut netlist = [0u8; FILE_LIMIT + 1];
    let mut inputs = [0u8; FILE_LIMIT];
    let mut tables = Tables::new();
    let mut out = [0u8; LINE];
    let bytes = program::files::read(&rt, b"netlist.txt", &mut netlist);
    let entries = program::files::read(&rt, b"inputs.txt", &mut inputs);
    let n = report(
        &mut out,
        &netlist[..bytes],
        &mut inputs[..entries],
        &mut tables,
    );
    io::writer(&rt).write_all(&out[..n])
}
