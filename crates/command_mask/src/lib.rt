//! The answers of `fidrovelj mask`, `twins` and `join`.
#![tactic(auto)]

pub mod join_answer;
pub mod mask_answer;
mod telling;
pub mod twins_answer;
