//! A session: source gates added at the end and taken off there, and their masked gates. specs/ has the definitions,
//! proofs/ the theorems.
#![tactic(auto)]

pub mod adding;
pub mod asking;
pub mod entries;
pub mod given;
pub mod opening;
pub mod plan;
pub mod results;
pub mod shown;
pub mod shown_text;
pub mod steps;
pub mod taking;

ghost use Rattle.std.specs.Prelude.{◌≡◌};
ghost use Rattle.netlist.specs.Services.{stands_for};

use netlist::Refusal;

/// How many source gates, and how many masked gates, stand at the front of the two lent lists.
#[repr(C)]
#[derive(Clone, Copy, Default)]
pub struct Session {
    pub gates: u32,
    pub masked: u32,
}

/// What a step answers: the session after it, and 0 or the question that gets a no; then the session is as it was. C
/// reads it, so the question is a number.
#[repr(C)]
#[derive(Clone, Copy)]
pub struct Step {
    pub session: Session,
    pub refused: u8,
}

impl Step {
    ghost use Rattle.session.specs.Lists.{said};

    /// The step of a session, or the question that refuses it.
    pub fn of(before: Session, answer: Result<Session, Refusal>) -> Step
        ensures { result ≡ said before (stands_for (λ s. s) answer) }
    {
        match answer {
            Ok(session) => Step {
                session,
                refused: 0,
            },
            Err(q) => Step {
                session: before,
                refused: q.number(),
            },
        }
    }
}
