//! One gate line: question 7. A line is read from the left: how many operands and results, the wires
//! or the constant, the gate's name, and nothing after it.
ghost use Rattle.std.specs.Prelude.{◌≡◌};
ghost use Rattle.netlist.specs.GateLine.{gate_line, gate1 as the_gate1, gate2 as the_gate2};
ghost use Rattle.text.specs.Line.{line_words};
ghost use Rattle.text.specs.Cursors.{left};
ghost use Rattle.reader.specs.GateForm.{alone, one, two};
ghost use Rattle.reader.specs.GateAnswers.{gate_named, numbers_for, named_for, NamedExact, LineIs};

use crate::operands::read_operands;
use gates::{GateNumbers, Kind};
use text::bytes::same;
use text::cursor::Cursor;

// The numbers of a gate.
fn numbers(kind: Kind, left: u32, right: u32, wire: u32) -> GateNumbers
    ensures { result ≡ numbers_for kind left right wire }
{
    GateNumbers {
        kind,
        left,
        right,
        result: wire,
    }
}

// The gate of one operand that a name stands for; EQ has a constant for it. The names are told apart by `same`, here
// and below: it is the one comparer that docs/RULES.md, Required forms, names.
#[tactic(auto, unfolding(crate::specs::GateAnswers::named_for))]
fn gate1(name: &[u8], first: u32, wire: u32) -> Option<GateNumbers>
    ensures { result ≡ named_for (the_gate1 name.now first wire) }
{
    if same(name, b"INV") {
        return Some(numbers(Kind::Inv, first, 0, wire));
    }
    if same(name, b"EQW") {
        return Some(numbers(Kind::Eqw, first, 0, wire));
    }
    if same(name, b"EQ") {
        return Some(numbers(Kind::Eq(first), 0, 0, wire));
    }
    None
}

// The gate of two operands that a name stands for.
#[tactic(auto, unfolding(crate::specs::GateAnswers::named_for))]
fn gate2(name: &[u8], first: u32, second: u32, wire: u32) -> Option<GateNumbers>
    ensures { result ≡ named_for (the_gate2 name.now first second wire) }
{
    if same(name, b"XOR") {
        return Some(numbers(Kind::Xor, first, second, wire));
    }
    if same(name, b"AND") {
        return Some(numbers(Kind::And, first, second, wire));
    }
    None
}

// The line of a gate whose name ends at a place, with the start of the next line: no other word may follow.
#[inline(always)]
fn last_word(at: Cursor, named: Option<GateNumbers>) -> Option<(GateNumbers, Cursor)>
    requires { NamedExact named }
    ensures { LineIs at.entry (alone (gate_named named) (line_words (left at.entry))) result }
{
    let g = named?;
    let next = at.line_end()?;
    Some((g, next))
}

// The operand, the result and the name of a gate of one operand.
#[inline(always)]
fn one_operand(at: Cursor) -> Option<(GateNumbers, Cursor)>
    ensures { LineIs at.entry (one (line_words (left at.entry))) result }
{
    let Some((a, at1)) = at.next_number() else {
        return None;
    };
    let Some((c, at2)) = at1.next_number() else {
        return None;
    };
    let (name, end) = at2.next_word();
    last_word(end, gate1(name, a, c))
}

// The operands, the result and the name of a gate of two operands.
#[inline(always)]
fn two_operands(at: Cursor) -> Option<(GateNumbers, Cursor)>
    ensures { LineIs at.entry (two (line_words (left at.entry))) result }
{
    let Some((a, at1)) = at.next_number() else {
        return None;
    };
    let Some((b, at2)) = at1.next_number() else {
        return None;
    };
    let Some((c, at3)) = at2.next_number() else {
        return None;
    };
    let (name, end) = at3.next_word();
    last_word(end, gate2(name, a, b, c))
}

/// The first line of the text from a place, as a gate, with the start of the next line. Inlined, since a call of its own
/// for each line takes two fifths more instructions.
#[inline(always)]
pub fn gate_line(at: Cursor) -> Option<(GateNumbers, Cursor)>
    ensures { LineIs at.entry (gate_line (line_words (left at.entry))) result }
{
    let (n, on) = read_operands(at)?;
    match n {
        1 => one_operand(on),
        2 => two_operands(on),
        _ => None,
    }
}
