//! Words that give no plan.

use std::alloc::{AllocError, AllocFailed};

/// The version that `--version` and every JSON object tell.
pub const VERSION: &str = version::TEXT;

/// Why there is nothing to do: help or the version was asked for, the words are no command, or memory ran out.
#[derive(Debug, Drop)]
pub enum Stop {
    /// a text for standard output; the status is 0
    Told(String),
    /// what is wrong with the words, for standard error; the status is 2
    Misused(String),
    /// memory ran out; the status is 2
    Memory,
}

impl From<AllocError> for Stop {
    fn from(_: AllocError) -> Stop {
        Stop::Memory
    }
}

impl<T: Drop> From<AllocFailed<T>> for Stop {
    fn from(_: AllocFailed<T>) -> Stop {
        Stop::Memory
    }
}
