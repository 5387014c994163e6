//! The answer of `fidrovelj check`.
#![tactic(auto)]

pub mod asking;
mod telling;
mod words;
