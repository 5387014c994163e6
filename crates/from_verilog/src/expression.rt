//! Expressions: three functions that call each other in a cycle. Each reads what stands at a place of the text and puts
//! a gate for each operator into the tables. They go as deep as the parentheses do.
ghost use Rattle.std.specs.Prelude.{◌+◌, ◌≤◌, ◌<◌, length};
ghost use Rattle.netlist.specs.Table.{half, tables};
ghost use Rattle.from_verilog.specs.Wires.{wire_of};
ghost use Rattle.from_verilog.specs.Operands.{Ready, ExprIs, TermIs, FactorIs, PastIs, Finished};

use crate::names::Names;
use crate::put_gates::put;
use crate::tokens::{Kind, Token, next as token_at};
use crate::wires::wire_of;
use gates::Kind::{And, Inv, Xor};

/// What was read: the wire that holds its value, the next free wire, and the token after it.
#[derive(Clone, Copy)]
pub struct Value {
    pub wire: u32,
    pub next: u32,
    pub token: Token,
}

/// An expression: terms with `^` between them.
#[cycle(expression_factor_term)]
pub fn expression(
    names: Names,
    wires: &[u32],
    operands: &mut [u64],
    results: &mut [u64],
    inputs: u32,
    from: usize,
    next: u32,
) -> Value
    requires { Ready names.text.now wires.now (length names.words.now) inputs from next }
    ensures { ExprIs (wire_of names.entry.text.now names.entry.words.now wires.now (length names.entry.words.now))
        names.entry.text.now inputs from next
        (tables operands.old results.old) (tables operands.new results.new) result }
{
    let mut left = term(names, wires, operands, results, inputs, from, next);
    while left.token.kind == Kind::Xor {
        let v = term(
            names,
            wires,
            operands,
            results,
            inputs,
            left.token.to,
            left.next,
        );
        put(operands, results, inputs, Xor, left.wire, v.wire, v.next);
        left = Value {
            wire: v.next,
            next: v.next + 1,
            token: v.token,
        };
    }
    left
}

// A term: factors with `&` between them.
#[cycle(expression_factor_term)]
fn term(
    names: Names,
    wires: &[u32],
    operands: &mut [u64],
    results: &mut [u64],
    inputs: u32,
    from: usize,
    next: u32,
) -> Value
    requires { Ready names.text.now wires.now (length names.words.now) inputs from next }
    ensures { TermIs (wire_of names.entry.text.now names.entry.words.now wires.now (length names.entry.words.now))
        names.entry.text.now inputs from next
        (tables operands.old results.old) (tables operands.new results.new) result }
{
    let mut left = factor(names, wires, operands, results, inputs, from, next);
    while left.token.kind == Kind::And {
        let v = factor(
            names,
            wires,
            operands,
            results,
            inputs,
            left.token.to,
            left.next,
        );
        put(operands, results, inputs, And, left.wire, v.wire, v.next);
        left = Value {
            wire: v.next,
            next: v.next + 1,
            token: v.token,
        };
    }
    left
}

// The token after a `~`, or the token itself.
fn past(text: &[u8], token: Token) -> Token
    requires { token.to ≤ length text.now }
    ensures { PastIs text.now token result }
{
    if token.kind == Kind::Not {
        return token_at(text, token.to);
    }
    token
}

// The value of an operand that ends at a place, inverted by a gate where a `~` stands before it, with the token that
// follows.
fn finish(
    text: &[u8],
    operands: &mut [u64],
    results: &mut [u64],
    inputs: u32,
    negated: bool,
    wire: u32,
    next: u32,
    to: usize,
) -> Value
    requires { (to ≤ length text.now) × (inputs ≤ next) × (next + 1 < half) }
    ensures { Finished text.now inputs negated wire next to (tables operands.old results.old)
        (tables operands.new results.new) result }
{
    let token = token_at(text, to);
    if negated {
        put(operands, results, inputs, Inv, wire, wire, next);
        return Value {
            wire: next,
            next: next + 1,
            token,
        };
    }
    Value { wire, next, token }
}

// A factor: a name or an expression in parentheses, or its inverse after a `~`.
#[cycle(expression_factor_term)]
fn factor(
    names: Names,
    wires: &[u32],
    operands: &mut [u64],
    results: &mut [u64],
    inputs: u32,
    from: usize,
    next: u32,
) -> Value
    requires { Ready names.text.now wires.now (length names.words.now) inputs from next }
    ensures { FactorIs (wire_of names.entry.text.now names.entry.words.now wires.now (length names.entry.words.now))
        names.entry.text.now inputs from next
        (tables operands.old results.old) (tables operands.new results.new) result }
{
    let text = names.text;
    let first = token_at(text, from);
    let negated = first.kind == Kind::Not;
    let t = past(text, first);
    match t.kind {
        Kind::Name => {
            let wire = wire_of(names, wires, &text[t.from..t.to]);
            finish(text, operands, results, inputs, negated, wire, next, t.to)
        }
        Kind::Open => {
            let e = expression(names, wires, operands, results, inputs, t.to, next);
            finish(
                text, operands, results, inputs, negated, e.wire, e.next, e.token.to,
            )
        }
        _ => finish(text, operands, results, inputs, false, 0, next, t.to),
    }
}
