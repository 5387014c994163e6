//! The gate lines: questions 6 to 9, each gate into the tables. An accepted text is walked once; after a refused line
//! the others are only counted, since question 6 comes first.
ghost use Rattle.std.specs.Prelude.{◌≡◌, cond, List, [], ℕ, ◌≤◌, ◌<◌, eqb, length};
ghost use Rattle.netlist.specs.declared.Refusal.TheVariants.{Count};
ghost use Rattle.netlist.specs.Text.{word_lines};
ghost use Rattle.text.specs.Cursors.{left as rest};
ghost use Rattle.netlist.specs.Table.{tables};
ghost use Rattle.gates.specs.Numbers.{gate_said, Names};
ghost use Rattle.reader.specs.Marks.{Marks};
ghost use Rattle.reader.specs.GateLines.{GateStepIs, GatesIs};
ghost use Rattle.gates.specs.Entry.{Stored};

use crate::dialect_gates::has_gate;
use crate::gate_line::gate_line;
use crate::header::Header;
use crate::marks::{mark, operands_given, result_free};
use dialect::Dialect;
use gates::{Entry, GateNumbers, put};
use netlist::Refusal;
use text::count::count_lines;
use text::cursor::Cursor;

// Questions 7 to 9 of one line in a dialect: its gate, with the start of the next line. The gate's result is then
// marked.
fn one_gate<'t>(
    at: Cursor<'t>,
    header: Header,
    marks: &mut [u8],
    dialect: Dialect,
) -> Result<(GateNumbers, Cursor<'t>), Refusal>
    requires { header.wires ≤ length marks.old }
    ensures { (rs : List ℕ) → Marks marks.old header.input_bits header.wires rs → GateStepIs dialect at.entry
        header.input_bits header.wires rs
        marks.new result }
{
    let (g, next) = gate_line(at).ok_or(Refusal::Line)?;
    if !has_gate(g, dialect) {
        return Err(Refusal::Line);
    }
    if !operands_given(marks, g) {
        return Err(Refusal::Operands);
    }
    let c = g.result;
    if !result_free(marks, c, header) {
        return Err(Refusal::Wire);
    }
    mark(marks, c);
    Ok((g, next))
}

// Stores a gate at a place of the tables.
fn store(operands: &mut [u64], results: &mut [u64], at: usize, gate: GateNumbers)
    requires { (at < length operands.old) × (at < length results.old) }
    ensures { (W : ℕ) → Names W (gate_said gate) → Stored W (tables operands.old results.old) at (gate_said gate)
        (tables operands.new results.new) }
{
    put(operands, results, at, Entry::from(gate));
}

// The question that refuses the text where one refuses a line: unless the lines from it on are as many as are left,
// question 6 comes first.
fn first(at: Cursor, left: usize, question: Refusal) -> Refusal
    ensures { result ≡ cond (eqb (length (word_lines (rest at.entry))) left) question Count }
{
    if count_lines(at) == left {
        question
    } else {
        Refusal::Count
    }
}

/// The lines from a place on, of which there must be as many as `count`: gates of a netlist with that header, in a
/// dialect. The count stands beside the header, whose own has 32 bits, so that it may be any.
pub fn read_gates(
    from: Cursor,
    count: usize,
    header: Header,
    marks: &mut [u8],
    operands: &mut [u64],
    results: &mut [u64],
    dialect: Dialect,
) -> Result<(), Refusal>
    requires { (count ≤ length operands.old) × (count ≤ length results.old) × Marks marks.old header.input_bits
        header.wires [] }
    ensures { GatesIs dialect (rest from.entry) count header.input_bits header.wires (tables operands.new results.new)
        result }
{
    let text = from.text;
    let mut at = from;
    for i in 0..count {
        let start = at.skip_blanks();
        if text.len() <= start.at {
            return Err(Refusal::Count);
        }
        match one_gate(start, header, marks, dialect) {
            Ok((g, next)) => {
                store(operands, results, i, g);
                at = next;
            }
            Err(question) => return Err(first(start, count - i, question)),
        }
    }
    let end = at.skip_blanks();
    if end.at < text.len() {
        return Err(Refusal::Count);
    }
    Ok(())
}
