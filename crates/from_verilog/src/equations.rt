//! The assignments of a text, one after another.
ghost use Rattle.std.specs.Prelude.{length};
ghost use Rattle.netlist.specs.Table.{tables};
ghost use Rattle.from_verilog.specs.Operands.{Ready};
ghost use Rattle.from_verilog.specs.Equations.{EquationsIs};

use crate::expression::expression;
use crate::names::Names;
use crate::tokens::{Kind, next as token_at};
use crate::wires::give;

/// Puts the gates of the assignments from a place on into the tables, and gives each target its wire; answers the next
/// free wire.
pub fn equations(
    names: Names,
    wires: &mut [u32],
    operands: &mut [u64],
    results: &mut [u64],
    inputs: u32,
    at: usize,
    next: u32,
) -> u32
    requires { Ready names.text.now wires.old (length names.words.now) inputs at next }
    ensures { EquationsIs names.entry.text.now names.entry.words.now inputs (length names.entry.words.now) at wires.old
        next
        (tables operands.old results.old) (tables operands.new results.new) wires.new result }
{
    let text = names.text;
    let mut token = token_at(text, at);
    let mut free = next;
    while token.kind == Kind::Assign {
        let target = token_at(text, token.to);
        let equals = token_at(text, target.to);
        let v = expression(names, wires, operands, results, inputs, equals.to, free);
        give(names, wires, &text[target.from..target.to], v.wire);
        free = v.next;
        token = token_at(text, v.token.to);
    }
    free
}
