//! The written form of the netlist that the tables hold, in either dialect, in one pass where the buffer surely holds
//! it, and otherwise measured first.
#![tactic(auto)]

pub mod form;
pub mod header;
pub mod made;

ghost use Rattle.std.specs.Prelude.{◌≤◌, ◌<◌, ◌≡◌, leb, length};
ghost use Rattle.netlist.specs.Services.{Delivers};
ghost use Rattle.gates.specs.Gates.{gates_in};
ghost use Rattle.writer.specs.Wrote.{Wrote, top};
ghost use Rattle.write_netlist.specs.Header.{header_text_in};
ghost use Rattle.writer.specs.WrittenGates.{WroteGates};
ghost use Rattle.write_netlist.specs.Text.{text_of};

use crate::form::Form;
use crate::header::Shape;
use gates::Gates;
use netlist::{Answer, Refusal};
use writer::word_table::Words;

// The header and the blank line.
fn header_lines(out: &mut [u8], form: Form) -> usize
    ensures { let F = form.entry in Wrote out.old 0 (header_text_in F.dialect F.gates.count F.wires F.ins.now
        F.outs.now)
        out.new result }
{
    let shape = Shape {
        gates: form.gates.count,
        wires: form.wires,
        ins: form.ins,
        outs: form.outs,
    };
    crate::header::header_in(out, 0, shape, form.dialect)
}

// The lines of the gates.
fn gate_lines(words: Words, out: &mut [u8], at: usize, gates: Gates) -> usize
    requires count_in_bounds { (gates.count ≤ length gates.operands.now) × (gates.count ≤ length gates.results.now) }
    ensures { WroteGates out.old at (gates_in gates.entry) out.new result }
{
    let mut next = at;
    let n = gates.count;
    for (o, r) in gates.operands[..n].iter().zip(&gates.results[..n]) {
        next = writer::gate_lines::entry(words, out, next, *o, *r);
    }
    next
}

// The header, the blank line and the gate lines, from the buffer's first place on; answers the place after them.
fn write(words: Words, out: &mut [u8], form: Form) -> usize
    ensures { Wrote out.old 0 (text_of form.entry) out.new result }
{
    let at = header_lines(out, form);
    gate_lines(words, out, at, form.gates)
}

// Question 14 of the text: yes where lines of the longest kind fit, and otherwise as it is measured.
fn holds(words: Words, room: usize, form: Form) -> bool
    requires { room < top }
    ensures { result ≡ leb (length (text_of form.entry)) room }
{
    let mut none = [0u8; 1];
    let header = header_lines(&mut none, form);
    writer::room::ample(room, header, form.gates.count, form.wires)
        || write(words, &mut none, form) <= room
}

// Question 14, and then the text.
fn answer(words: Words, out: &mut [u8], form: Form) -> Answer
    ensures { Delivers (text_of form.entry) out.old out.new result }
{
    if holds(words, out.len(), form) {
        Ok(write(words, out, form))
    } else {
        Err(Refusal::Room)
    }
}

/// Question 14 and the text.
pub fn deliver(out: &mut [u8], form: Form) -> Answer
    ensures { Delivers (text_of form.entry) out.old out.new result }
{
    if let Some(none) = Words::none_for(form.wires) {
        return answer(none, out, form);
    }
    let mut table = [0u64; 2000];
    answer(Words::of(&mut table, form.wires), out, form)
}
