//! Question 16: whether a text is one of the subset, depth aside. One pass over its tokens, with a phase and a counter
//! of open parentheses.
ghost use Rattle.std.specs.Prelude.{◌≡◌, ◌+◌, ◌≤◌, ◌<◌, length, IfSome};
ghost use Rattle.netlist.specs.Table.{half};
ghost use Rattle.from_verilog.specs.Kind.{number_of};
ghost use Rattle.from_verilog.specs.Turns.{stepped, said, phase_of, operator_code, ScanIs};

use crate::tokens::{Kind, next};

/// What comes next, or what stands before.
#[derive(Clone, Copy, PartialEq, Eq)]
pub enum Phase {
    OnModule,
    OnTitle,
    OnPorts,
    OnPort,
    BehindPort,
    OnHeadEnd,
    OnItem,
    OnAssign,
    OnName,
    BehindName,
    OnTarget,
    OnEquals,
    OnOperand,
    OnNegated,
    BehindOperand,
    OnNothing,
}

/// A phase, and how many parentheses are open.
#[derive(Clone, Copy)]
pub struct Step {
    pub phase: Phase,
    pub depth: usize,
}

/// The most parentheses that are open at once, and how many operators there are.
#[derive(Clone, Copy)]
pub struct Scan {
    pub deepest: usize,
    pub operators: usize,
}

// The phase and the open parentheses after a token, where it may come: a parenthesis closes one that is open, and at
// the end of an assignment none is.
fn following(state: Step, kind: Kind) -> Option<Step>
    requires { state.depth < half }
    ensures step { said result ≡ stepped (phase_of state.phase) (number_of kind) state.depth }
    ensures grows { IfSome result (λ t. t.depth ≤ state.depth + 1) }
{
    let depth = state.depth;
    let (phase, depth) = match (state.phase, kind) {
        (Phase::OnOperand | Phase::OnNegated, Kind::Name) => (Phase::BehindOperand, depth),
        (Phase::OnOperand | Phase::OnNegated, Kind::Open) => (Phase::OnOperand, depth + 1),
        (Phase::OnOperand, Kind::Not) => (Phase::OnNegated, depth),
        (Phase::BehindOperand, Kind::And | Kind::Xor) => (Phase::OnOperand, depth),
        (Phase::BehindOperand, Kind::Close) if 0 < depth => (Phase::BehindOperand, depth - 1),
        (Phase::BehindOperand, Kind::Semicolon) if depth == 0 => (Phase::OnAssign, depth),
        (Phase::OnItem | Phase::OnAssign, Kind::Assign) => (Phase::OnTarget, depth),
        (Phase::OnItem | Phase::OnAssign, Kind::EndModule) => (Phase::OnNothing, depth),
        (Phase::OnTarget, Kind::Name) => (Phase::OnEquals, depth),
        (Phase::OnEquals, Kind::Equals) => (Phase::OnOperand, depth),
        (Phase::OnItem, Kind::Input | Kind::Output | Kind::Wire) => (Phase::OnName, depth),
        (Phase::OnName, Kind::Name) => (Phase::BehindName, depth),
        (Phase::BehindName, Kind::Comma) => (Phase::OnName, depth),
        (Phase::BehindName, Kind::Semicolon) => (Phase::OnItem, depth),
        (Phase::OnModule, Kind::Module) => (Phase::OnTitle, depth),
        (Phase::OnTitle, Kind::Name) => (Phase::OnPorts, depth),
        (Phase::OnPorts, Kind::Open) => (Phase::OnPort, depth),
        (Phase::OnPort, Kind::Name) => (Phase::BehindPort, depth),
        (Phase::BehindPort, Kind::Comma) => (Phase::OnPort, depth),
        (Phase::BehindPort, Kind::Close) => (Phase::OnHeadEnd, depth),
        (Phase::OnHeadEnd, Kind::Semicolon) => (Phase::OnItem, depth),
        _ => return None,
    };
    Some(Step { phase, depth })
}

// 1 for an operator, else 0: a number and no `bool`, since its one caller adds it up.
fn operators(kind: Kind) -> usize
    ensures { result ≡ operator_code (number_of kind) }
{
    match kind {
        Kind::Not | Kind::And | Kind::Xor => 1,
        _ => 0,
    }
}

/// Question 16 of a text.
pub fn walk(text: &[u8]) -> Option<Scan>
    requires { length text.now < half }
    ensures { ScanIs text.now result }
{
    let mut token = next(text, 0);
    let mut s = Step {
        phase: Phase::OnModule,
        depth: 0,
    };
    let mut deepest = 0;
    let mut count = 0;
    while token.kind != Kind::End {
        s = following(s, token.kind)?;
        deepest = deepest.max(s.depth);
        count += operators(token.kind);
        token = next(text, token.to);
    }
    if s.phase != Phase::OnNothing {
        return None;
    }
    Some(Scan {
        deepest,
        operators: count,
    })
}
