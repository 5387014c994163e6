//! The assignments, for question 17: each reads names that may be read, and its target becomes one.
ghost use Rattle.std.specs.Prelude.{◌≡◌, ◌≤◌, length};
ghost use Rattle.from_verilog.specs.Kind.{number_of};
ghost use Rattle.from_verilog.specs.Next.{between};
ghost use Rattle.from_verilog.specs.Parts.{token_passes, readable, PartIs, PastIs};
ghost use Rattle.from_verilog.specs.Settled.{TargetIs, AssignsIs};

use crate::names::Names;
use crate::states::{State, advance};
use crate::tokens::{Kind, Token, next};
use crate::wires::wire_of;

// Whether a token may stand in an expression: the end of the text may not, and a name only if it may be read.
fn passes(names: Names, states: &[u32], token: Token) -> bool
    requires { (length names.words.now ≤ length states.now) × (token.from ≤ token.to)
        × (token.to ≤ length names.text.now) }
    ensures { result ≡ token_passes (readable names.entry.text.now names.entry.words.now states.now
        (length names.entry.words.now))
        (number_of token.kind) (between names.entry.text.now token.from token.to) }
{
    match token.kind {
        Kind::End => false,
        Kind::Name => {
            let state = wire_of(names, states, &names.text[token.from..token.to]);
            State::Readable.number() <= state
        }
        _ => true,
    }
}

// The place after the next semicolon, if each name before it may be read.
fn reads(names: Names, states: &[u32], at: usize) -> Option<usize>
    requires { (length names.words.now ≤ length states.now) × (at ≤ length names.text.now) }
    ensures { PartIs names.entry.text.now (readable names.entry.text.now names.entry.words.now states.now
        (length names.entry.words.now)) at result }
{
    let mut token = next(names.text, at);
    while token.kind != Kind::Semicolon {
        if !passes(names, states, token) {
            return None;
        }
        token = next(names.text, token.to);
    }
    Some(token.to)
}

/// The place after the next semicolon.
pub fn past(text: &[u8], at: usize) -> usize
    requires { at ≤ length text.now }
    ensures { PastIs text.now at result }
{
    let mut token = next(text, at);
    while token.kind != Kind::Semicolon {
        if token.kind == Kind::End {
            return token.to;
        }
        token = next(text, token.to);
    }
    token.to
}

// Makes a name one that may be read; says whether it was a wire or an output not yet assigned.
fn assign(names: Names, states: &mut [u32], name: &[u8]) -> bool
    requires { length names.words.now ≤ length states.old }
    ensures { TargetIs names.entry.text.now names.entry.words.now (length names.entry.words.now) name.now states.old
        states.new result }
{
    advance(names, states, name, State::Wire, State::Readable)
        || advance(names, states, name, State::Port, State::ReadableOutput)
}

/// The assignments from a place on: whether each reads only names that may be read, and assigns a wire or an output
/// that is not yet assigned.
pub fn assigns(names: Names, states: &mut [u32], at: usize) -> bool
    requires { (length names.words.now ≤ length states.old) × (at ≤ length names.text.now) }
    ensures { AssignsIs names.entry.text.now names.entry.words.now (length names.entry.words.now) at states.old
        states.new result }
{
    let text = names.text;
    let mut token = next(text, at);
    while token.kind == Kind::Assign {
        let name = next(text, token.to);
        let equals = next(text, name.to);
        let Some(following) = reads(names, states, equals.to) else {
            return false;
        };
        if !assign(names, states, &text[name.from..name.to]) {
            return false;
        }
        token = next(text, following);
    }
    true
}
