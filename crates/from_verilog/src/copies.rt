//! The outputs, copied in port order after all other gates.
ghost use Rattle.std.specs.Prelude.{◌+◌, ◌≤◌, ◌<◌, length};
ghost use Rattle.netlist.specs.Table.{half, tables};
ghost use Rattle.from_verilog.specs.Copies.{CopyIs, CopiesIs};

use crate::names::Names;
use crate::put_gates::put;
use crate::states::State;
use crate::tokens::{Kind, next as token_at};
use crate::wires::wire_of;
use gates::Kind::Eqw;

// Copies a name to a wire, if it is an output; answers the next free wire.
fn copy(
    names: Names,
    states: &[u32],
    wires: &[u32],
    operands: &mut [u64],
    results: &mut [u64],
    inputs: u32,
    name: &[u8],
    free: u32,
) -> u32
    requires { (length names.words.now ≤ length states.now) × (length names.words.now ≤ length wires.now)
        × (inputs ≤ free)
        × (free + 1 < half) }
    ensures { CopyIs names.entry.text.now names.entry.words.now states.now wires.now (length names.entry.words.now)
        inputs
        name.now free
        (tables operands.old results.old) (tables operands.new results.new) result }
{
    if wire_of(names, states, name) != State::ReadableOutput.number() {
        return free;
    }
    let wire = wire_of(names, wires, name);
    put(operands, results, inputs, Eqw, wire, wire, free);
    free + 1
}

/// Copies the outputs among the ports from a place on.
pub fn copies(
    names: Names,
    states: &[u32],
    wires: &[u32],
    operands: &mut [u64],
    results: &mut [u64],
    inputs: u32,
    at: usize,
    next: u32,
)
    requires { (length names.words.now ≤ length states.now) × (length names.words.now ≤ length wires.now)
        × (at ≤ length names.text.now) × (inputs ≤ next)
        × (next + length names.text.now + 1 < half) }
    ensures { CopiesIs names.entry.text.now names.entry.words.now states.now wires.now (length names.entry.words.now)
        inputs
        at next
        (tables operands.old results.old) (tables operands.new results.new) }
{
    let text = names.text;
    let mut token = token_at(text, at);
    let mut free = next;
    while token.kind == Kind::Name {
        let w = &text[token.from..token.to];
        free = copy(names, states, wires, operands, results, inputs, w, free);
        let comma = token_at(text, token.to);
        token = token_at(text, comma.to);
    }
}
