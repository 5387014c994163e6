//! Why a command is refused.

use command_lists::failure::ListError;
use command_refusals::refused_text::RefusedText;
use std::alloc::{AllocError, AllocFailed};
use std::fmt;

/// Why a command ends with status 2.
#[derive(Debug, Drop)]
pub enum Failure {
    /// a text is refused by a question
    Refused(RefusedText),
    /// a list is not taken: where it stands, and why
    List(String, ListError),
    /// something else, in words
    Words(String),
    /// memory ran out
    Memory,
}

impl fmt::Display for Failure {
    fn fmt<W: fmt::Write>(&self, f: &mut fmt::Formatter<W>) -> fmt::Result {
        match self {
            Failure::Refused(refused) => write!(f, "{refused}"),
            Failure::List(place, error) => write!(f, "{place}: {error}"),
            Failure::Words(words) => write!(f, "{words}"),
            Failure::Memory => f.write_str("out of memory"),
        }
    }
}

impl From<AllocError> for Failure {
    fn from(_: AllocError) -> Failure {
        Failure::Memory
    }
}

impl<T: Drop> From<AllocFailed<T>> for Failure {
    fn from(_: AllocFailed<T>) -> Failure {
        Failure::Memory
    }
}
