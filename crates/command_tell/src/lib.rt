//! The answers of `fidrovelj run`, `convert`, `same` and `info`.
#![tactic(auto)]

pub mod convert_answer;
pub mod info_answer;
pub mod run_answer;
pub mod same_answer;
mod vectors;
