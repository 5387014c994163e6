//! Which wires are given: the inputs, and the results of earlier lines. Entry x of the table is 1 where wire x is.
ghost use Rattle.std.specs.Prelude.{◌≡◌, ◌&&◌, not, [], ◌≤◌, ◌<◌, leb, ltb, length, set, replicate};
ghost use Rattle.netlist.specs.Read.{operands_given};
ghost use Rattle.gates.specs.Numbers.{gate_said};
ghost use Rattle.reader.specs.Marks.{marked, Marks};

use crate::header::Header;
use gates::{GateNumbers, Kind, second};

// Whether a wire is marked. Past the table's end none is.
#[tactic(auto, unfolding(crate::specs::Marks::marked))]
fn is_marked(table: &[u8], wire: u32) -> bool
    ensures { result ≡ marked table.now wire }
{
    table.get(wire as usize) == Some(&1)
}

/// Question 8: each operand is marked, or the constant is a bit.
pub fn operands_given(table: &[u8], gate: GateNumbers) -> bool
    ensures { result ≡ operands_given (marked table.now) (gate_said gate) }
{
    match gate.kind {
        Kind::Eq(v) => v < 2,
        _ => is_marked(table, gate.left) && is_marked(table, second(gate)),
    }
}

/// Question 9: no input, below the header's wires and not marked.
pub fn result_free(table: &[u8], wire: u32, header: Header) -> bool
    ensures { result ≡ (leb header.input_bits wire && ltb wire header.wires && not (marked table.now wire)) }
{
    header.input_bits <= wire as u64 && wire < header.wires && !is_marked(table, wire)
}

/// Marks a wire.
pub fn mark(table: &mut [u8], wire: u32)
    requires { wire < length table.old }
    ensures { table.new ≡ set table.old wire 1 }
{
    let i = wire as usize;
    table[i] = 1;
}

/// Marks the inputs of a header in a table that marks nothing.
pub fn mark_inputs(table: &mut [u8], header: Header)
    requires { (header.wires ≤ length table.old) × (table.old ≡ replicate (length table.old) 0) }
    ensures { Marks table.new header.input_bits header.wires [] }
{
    table[..header.input_bits as usize].fill(1);
}
