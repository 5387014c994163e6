//! A whole file into lent tables: questions 1, 2, 19, 20, 19 and 5.
ghost use Rattle.std.specs.Prelude.{◌≡◌, [], ◌∷◌, ◌+◌, ◌^◌, ◌≤◌, ◌<◌, length, replicate};
ghost use Rattle.netlist.specs.Table.{tables};
ghost use Rattle.aiger.specs.Call.{lines_read, read_aiger};
ghost use Rattle.from_aiger.specs.LineAnswers.{lines_left};
ghost use Rattle.from_aiger.specs.HeadAnswers.{head_said};
ghost use Rattle.from_aiger.specs.WholeAnswers.{asked_aiger};
ghost use Rattle.write_netlist.specs.Made.{NetlistIs};

use crate::body::body;
use crate::counts::HeadNumbers;
use crate::head::head;
use crate::lines::Lines;
use netlist::{Limits, Refusal};
use write_netlist::made::NetlistNumbers;

// Question 19 of the lines after a header, then 5.
fn after_head(
    lines: Lines<'_>,
    header: HeadNumbers,
    limits: Limits,
    table: &mut [u32],
    operands: &mut [u64],
    results: &mut [u64],
) -> Result<NetlistNumbers, Refusal>
    requires blank { table.old ≡ replicate (length table.old) 0 }
    requires long { (header.most < length table.old) × (header.most < length operands.old)
        × (limits.wires ≤ length operands.old)
        × (limits.wires ≤ length results.old) }
    ensures { NetlistIs (lines_read limits (head_said header) (lines_left lines.entry))
        (tables operands.new results.new) result }
{
    let gates = body(lines, header, table, operands, results).ok_or(Refusal::Aiger)?;
    NetlistNumbers::admitted(header.inputs, gates, header.outputs, limits)
}

// Questions 2, 19, 20, 19 and 5, with tables that question 1 admits, the first of them zero.
fn read_file(
    text: &[u8],
    limits: Limits,
    table: &mut [u32],
    operands: &mut [u64],
    results: &mut [u64],
) -> Result<NetlistNumbers, Refusal>
    requires { (limits.wires ≤ length table.old) × (table.old ≡ replicate (length table.old) 0)
        × (limits.wires ≤ length operands.old)
        × (limits.wires ≤ length results.old) }
    ensures { NetlistIs (read_aiger limits text.now) (tables operands.new results.new) result }
{
    if limits.text < text.len() {
        return Err(Refusal::Length);
    }
    let (h, lines) = head(text, limits)?;
    after_head(lines, h, limits, table, operands, results)
}

/// Questions 1, 2, 19, 20, 19 and 5. The gates go into two tables, and a third gets the wires of variables; each is of
/// any content.
pub fn read(
    text: &[u8],
    operands: &mut [u64],
    results: &mut [u64],
    variables: &mut [u32],
    limits: Limits,
) -> Result<NetlistNumbers, Refusal>
    requires { limits.wires ≤ limits.table }
    ensures { NetlistIs (asked_aiger limits (length operands.old ∷ length results.old ∷ length variables.old ∷ [])
        text.now) (tables operands.new results.new) result }
{
    if !limits.admit(&[operands.len(), results.len(), variables.len()]) {
        return Err(Refusal::Tables);
    }
    variables.fill(0);
    read_file(text, limits, variables, operands, results)
}
