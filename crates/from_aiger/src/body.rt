//! The lines after the header.
ghost use Rattle.std.specs.Prelude.{◌≡◌, List, ℕ, ◌+◌, ◌*◌, ◌<◌, ◌≤◌, length, replicate};
ghost use Rattle.netlist.specs.Table.{tables};
ghost use Rattle.from_aiger.specs.LineAnswers.{lines_left};
ghost use Rattle.from_aiger.specs.StepAnswers.{InputsAt};
ghost use Rattle.from_aiger.specs.HeadAnswers.{head_said};
ghost use Rattle.from_aiger.specs.WholeAnswers.{LinesIs, gates_made};

use crate::ands::ands;
use crate::counts::HeadNumbers;
use crate::inputs::inputs;
use crate::kept::keep_literals;
use crate::lines::Lines;
use crate::output_gates::outputs;
use crate::output_marks::{are_given, mark_literals};

// The lines after the input lines, whose outputs are at most as many as the table of results has entries. Its end keeps
// their literals, and its front gets the gates of the AND lines; the gates of outputs are put where all have room. The
// table of variables goes up to M, here and below. Answers how many gates the netlist made of the file has.
fn by_literals(
    lines: Lines<'_>,
    header: HeadNumbers,
    table: &mut [u32],
    operands: &mut [u64],
    results: &mut [u64],
) -> Option<usize>
    requires { (length table.old ≡ header.most + 1) × (header.outputs ≤ length results.old) }
    ensures { ((ls : List (List (List ℕ))) → InputsAt ls header.inputs header.most table.old (lines_left lines.entry)
        → LinesIs (head_said header) ls (tables operands.new results.new) result)
        × (gates_made result ≤ 3 * header.ands + header.outputs) }
{
    let n = header.inputs;
    let outs = header.outputs as usize;
    let room = results.len() - outs;
    let rest = keep_literals(lines, &mut results[room..])?;
    let (count, _) = ands(rest, header.ands, n, table, operands, &mut results[..room])?;
    outputs(table, operands, results, room, n, count)?;
    Some(count + outs)
}

// The lines after the input lines, whose outputs are more than the table of results has entries. No gate is kept, and
// the table of operands gets the marks.
fn by_marks(
    lines: Lines<'_>,
    header: HeadNumbers,
    table: &mut [u32],
    operands: &mut [u64],
    results: &mut [u64],
) -> Option<usize>
    requires { (length table.old ≡ header.most + 1) × (length results.old < header.outputs)
        × (header.most < length operands.old) }
    ensures { ((ls : List (List (List ℕ))) → InputsAt ls header.inputs header.most table.old (lines_left lines.entry)
        → LinesIs (head_said header) ls (tables operands.new results.new) result)
        × (gates_made result ≤ 3 * header.ands + header.outputs) }
{
    let marks = &mut operands[..=header.most as usize];
    marks.fill(0);
    let rest = mark_literals(lines, header.outputs, marks)?;
    let mut spare = [0u64; 1];
    let (count, _) = ands(rest, header.ands, header.inputs, table, &mut spare, results)?;
    if !are_given(table, marks) {
        return None;
    }
    Some(count + header.outputs as usize)
}

/// All lines after a header, with a table that gives nothing yet. The tables keep as many gates as they have room for.
pub fn body(
    lines: Lines<'_>,
    header: HeadNumbers,
    table: &mut [u32],
    operands: &mut [u64],
    results: &mut [u64],
) -> Option<usize>
    requires { (header.most < length table.old)
        × (table.old ≡ replicate (length table.old) 0) × (header.most < length operands.old) }
    ensures { LinesIs (head_said header) (lines_left lines.entry)
        (tables operands.new results.new) result × (gates_made result ≤ 3 * header.ands + header.outputs) }
{
    let variables = &mut table[..=header.most as usize];
    let rest = inputs(lines, header.inputs, variables)?;
    if results.len() < header.outputs as usize {
        by_marks(rest, header, variables, operands, results)
    } else {
        by_literals(rest, header, variables, operands, results)
    }
}
