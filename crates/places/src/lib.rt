//! Where a text is refused: of questions 2 to 9 the first that gets a no, with the first place that it is put to in
//! vain (docs/RULES.md, Questions).
#![tactic(auto)]

pub mod bytes;
pub mod fault;
pub mod find;
pub mod gate_words;
mod header_lines;
mod limits;
pub mod lines;
pub mod place;
pub mod position;
