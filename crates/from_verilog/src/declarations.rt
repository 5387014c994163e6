//! The declarations of a text, each name into the tables once.
ghost use Rattle.std.specs.Prelude.{◌≡◌, true, ◌≤◌, ◌<◌, length};
ghost use Rattle.netlist.specs.Table.{half};
ghost use Rattle.from_verilog.specs.Kind.{number_of};
ghost use Rattle.from_verilog.specs.Names.{Chained};
ghost use Rattle.from_verilog.specs.Stages.{declares, kind_after, DeclaredIs};
ghost use Rattle.from_verilog.specs.States.{kind_number};
ghost use Rattle.from_verilog.specs.One.{NameIs, OneIs};

use crate::names::Names;
use crate::states::State;
use crate::tokens::{Kind, Token, next};

/// How many names there are, and the place after the declarations.
#[derive(Clone, Copy)]
pub struct Declared {
    pub count: usize,
    pub at: usize,
}

/// How many names there are so far, and the state of the next one: none before the first word that declares one.
#[derive(Clone, Copy, Default)]
pub struct Loaded {
    pub count: usize,
    pub kind: Option<State>,
}

// Whether a token may stand among declarations.
fn declares(kind: Kind) -> bool
    ensures { result ≡ declares (number_of kind) }
{
    matches!(
        kind,
        Kind::Name | Kind::Semicolon | Kind::Comma | Kind::Input | Kind::Output | Kind::Wire
    )
}

// Adds the name that a token is as one more entry; says whether it had none yet and there was room.
fn add_name(
    text: &[u8],
    heads: &mut [u64],
    words: &mut [u64],
    links: &mut [u64],
    states: &mut [u32],
    so_far: Loaded,
    token: Token,
) -> bool
    requires { Chained text.now heads.old words.old links.old (length heads.old) so_far.count
        × (length words.old ≤ length links.old)
        × (length words.old ≤ length states.old) × (token.from ≤ token.to) × (token.to ≤ length text.now) }
    ensures { NameIs text.now (length heads.old) (length words.old) so_far.count (kind_number so_far.kind) token.from
        token.to
        heads.old heads.new words.old words.new links.old links.new states.old states.new result }
{
    let Loaded { count, kind } = so_far;
    if words.len() <= count {
        return false;
    }
    let names = Names {
        text,
        heads,
        words: &words[..count],
        links: &links[..count],
    };
    if names.find(&text[token.from..token.to]).is_some() {
        return false;
    }
    crate::names::add(text, token.from, token.to, heads, words, links, count);
    states[count] = kind.map_or(0, State::number);
    true
}

// The state of the names after a token that is no name.
fn kind_after(state: Option<State>, kind: Kind) -> Option<State>
    requires { declares (number_of kind) ≡ true }
    ensures { kind_number result ≡ kind_after (kind_number state) (number_of kind) }
{
    match kind {
        Kind::Input => Some(State::Input),
        Kind::Output => Some(State::Output),
        Kind::Wire => Some(State::Wire),
        _ => state,
    }
}

// One token among declarations; none for a name that is not new, or has no room.
fn one(
    text: &[u8],
    heads: &mut [u64],
    words: &mut [u64],
    links: &mut [u64],
    states: &mut [u32],
    so_far: Loaded,
    token: Token,
) -> Option<Loaded>
    requires { Chained text.now heads.old words.old links.old (length heads.old) so_far.count
        × (length words.old ≤ length links.old)
        × (length words.old ≤ length states.old) × (token.from ≤ token.to) × (token.to ≤ length text.now)
        × (declares (number_of token.kind) ≡ true) × (so_far.count < half) }
    ensures { OneIs text.now (length heads.old) (length words.old) so_far.count (kind_number so_far.kind)
        (number_of token.kind) token.from token.to
        heads.old heads.new words.old words.new links.old links.new states.old states.new result }
{
    let Loaded { count, kind } = so_far;
    if token.kind != Kind::Name {
        return Some(Loaded {
            count,
            kind: kind_after(kind, token.kind),
        });
    }
    if !add_name(text, heads, words, links, states, so_far, token) {
        return None;
    }
    Some(Loaded {
        count: count + 1,
        kind,
    })
}

/// The declarations from a place on; none if a name stands twice, or the table of words has no room for all.
pub fn declarations(
    text: &[u8],
    heads: &mut [u64],
    words: &mut [u64],
    links: &mut [u64],
    states: &mut [u32],
    at: usize,
) -> Option<Declared>
    requires { Chained text.now heads.old words.old links.old (length heads.old) 0
        × (length words.old ≤ length links.old)
        × (length words.old ≤ length states.old) × (length words.old < half) × (at ≤ length text.now) }
    ensures { DeclaredIs text.now at (length heads.old) (length words.old) heads.new words.new links.new states.new
        result }
{
    let mut token = next(text, at);
    let mut place = at;
    let mut so_far = Loaded::default();
    while declares(token.kind) {
        so_far = one(text, heads, words, links, states, so_far, token)?;
        place = token.to;
        token = next(text, token.to);
    }
    Some(Declared {
        count: so_far.count,
        at: place,
    })
}
