//! A whole text into lent tables: questions 1 to 9.
ghost use Rattle.std.specs.Prelude.{◌≡◌, ◌∷◌, ◌≤◌, length, replicate};
ghost use Rattle.netlist.specs.Table.{tables};
ghost use Rattle.reader.specs.Whole.{Readable, TextIs, ReadSays, ReadIs};

use crate::gate_lines::read_gates;
use crate::header::Header;
use crate::marks::mark_inputs;
use crate::opening::read_opening_in;
use dialect::Dialect;
use netlist::{Limits, Refusal};
use text::cursor::Cursor;

// Questions 2 to 9, with tables that question 1 admits; `marks`, which must be zero, then marks every wire.
fn read_text(
    text: &[u8],
    limits: Limits,
    inputs: &mut [u32],
    outputs: &mut [u32],
    marks: &mut [u8],
    operands: &mut [u64],
    results: &mut [u64],
    dialect: Dialect,
) -> Result<Header, Refusal>
    requires widths_in_bounds { (limits.inputs ≤ length inputs.old) × (limits.outputs ≤ length outputs.old) }
    requires wires_in_bounds { (limits.wires ≤ length marks.old) × (limits.wires ≤ length operands.old)
        × (limits.wires ≤ length results.old)
        × (marks.old ≡ replicate (length marks.old) 0) }
    ensures { TextIs dialect limits text.now inputs.new outputs.new
        (tables operands.new results.new) result }
{
    let (h, at) = read_opening_in(text, limits, inputs, outputs, dialect)?;
    mark_inputs(marks, h);
    // the place in `text` itself: with the text that came back beside it, reading takes a twentieth longer
    let here = Cursor { text, at: at.at };
    read_gates(here, h.gates as usize, h, marks, operands, results, dialect)?;
    Ok(h)
}

/// Questions 1 to 9 in a dialect: the numbers of the header of a netlist that the tables then hold. The widths of the
/// values go to the front of two tables, the gates into two others, each of any content; `others` are the lengths of
/// the lent tables that are not among these.
pub fn read_in(
    text: &[u8],
    inputs: &mut [u32; 17],
    outputs: &mut [u32; 16],
    operands: &mut [u64],
    results: &mut [u64],
    marks: &mut [u8],
    others: &[usize],
    limits: Limits,
    dialect: Dialect,
) -> Result<Header, Refusal>
    requires { Readable limits }
    ensures { ReadSays dialect limits (length operands.old ∷ length results.old ∷ length marks.old ∷ others.now)
        text.now
        inputs.new outputs.new (tables operands.new results.new) result }
{
    if !limits.admit(&[operands.len(), results.len(), marks.len()]) || !limits.admit(others) {
        return Err(Refusal::Tables);
    }
    marks.fill(0);
    read_text(
        text, limits, inputs, outputs, marks, operands, results, dialect,
    )
}

/// Questions 1 to 9 of a text in Fashion.
pub fn read(
    text: &[u8],
    inputs: &mut [u32; 17],
    outputs: &mut [u32; 16],
    operands: &mut [u64],
    results: &mut [u64],
    marks: &mut [u8],
    others: &[usize],
    limits: Limits,
) -> Result<Header, Refusal>
    requires { Readable limits }
    ensures { ReadIs limits (length operands.old ∷ length results.old ∷ length marks.old ∷ others.now)
        text.now
        inputs.new outputs.new (tables operands.new results.new) result }
{
    read_in(
        text,
        inputs,
        outputs,
        operands,
        results,
        marks,
        others,
        limits,
        Dialect::Fashion,
    )
}
