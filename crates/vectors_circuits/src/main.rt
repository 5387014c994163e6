#![tactic(auto)]

// Circuits with vectors, through Run, Rewrite, Mask and Check, against a second evaluator. The file `files` has a line
// for each circuit: the name of its netlist, NAME.txt, which is in the written form, and that of its vectors, whose
// lines are input bits, output bits and a label. A line is printed for each group of cases: how many agreed, of how
// many.
mod buffers;
mod codes;
mod counts;
mod forms;
mod masked;
mod second;
mod services;
mod vectors;
mod verdicts;
mod words;

use crate::codes::Range;
use crate::masked::Masked;
use crate::vectors::{Masking, Vectors};
use crate::words::Cursor;
use program::report::Score;
use std::io;
use std::io::Write;
use std::rt::Files;

// The most circuits that the file of names has.
const CIRCUITS: usize = 100;

// Prints a group's line, as far as 256 bytes hold it after the circuit's name.
fn print(rt: &impl Print, circuit: &[u8], group: &[u8], score: Score) -> io::Result<()> {
    let mut out = [0u8; 256];
    let n = program::report::line(&mut out, group, score);
    io::writer(rt).write_all(circuit)?;
    io::writer(rt).write_all(b", ")?;
    io::writer(rt).write_all(program::lines::first(&out, n))
}

// A circuit on all of its vectors, and its masked netlists under three lists of codes on some eight of them each.
fn circuit(rt: &impl Print, name: &[u8], text: &[u8], file: &[u8]) -> io::Result<()> {
    let plain = Masking {
        ins: b"",
        outs: b"",
        settings: 1,
    };
    let run = vectors::score(text, Vectors { file, step: 1 }, plain);
    let some = Vectors {
        file,
        step: run.cases / 8 + 1,
    };
    let a = masked::scored(
        text,
        some,
        Range { low: 1, high: 1 },
        Range { low: 0, high: 0 },
    );
    let b = masked::scored(
        text,
        some,
        Range { low: 1, high: 3 },
        Range { low: 1, high: 3 },
    );
    let c = masked::scored(
        text,
        some,
        Range { low: 3, high: 3 },
        Range { low: 0, high: 3 },
    );
    print(rt, name, b"run", run)?;
    report(rt, name, forms::score(text), a.join(b.join(c)))
}

fn report(rt: &impl Print, name: &[u8], forms: Score, masked: Masked) -> io::Result<()> {
    print(rt, name, b"rewrite", forms.join(masked.rewrite))?;
    if masked.check.cases == 0 {
        return print(rt, name, b"refused by Mask", masked.mask);
    }
    print(rt, name, b"mask", masked.mask)?;
    print(rt, name, b"check", masked.check)?;
    if 0 < masked.leaks.cases {
        print(rt, name, b"edits that leak", masked.leaks)?;
    }
    Ok(())
}

// A circuit by the names of its two files.
fn named(rt: &(impl Files + Print), netlist: &[u8], vectors: &[u8]) -> io::Result<()> {
    if netlist.len() < 4 {
        return Ok(());
    }
    let mut text = buffers::text();
    let mut file = buffers::text();
    let n = program::files::read(rt, netlist, &mut text);
    let m = program::files::read(rt, vectors, &mut file);
    circuit(
        rt,
        words::part(netlist, 0, netlist.len() - 4),
        words::part(&text, 0, n),
        words::part(&file, 0, m),
    )
}

fn main(rt: HostRuntime) -> io::Result<()> {
    let mut list = buffers::names();
    program::files::read(&rt, b"files", &mut list);
    let mut netlist = Cursor::start(&list);
    for _ in 0..CIRCUITS {
        let vectors = netlist.following();
        named(&rt, netlist.word(), vectors.word())?;
        netlist = vectors.following();
    }
    Ok(())
}
