//! Refusals in words: what question gets a no, where in the text, and what to do. The verdict is the core's; here the
//! place is found by reading the text again.
#![tactic(auto)]

pub mod advice;
mod gate_lines;
mod header;
mod lines;
pub mod place;
pub mod refused_text;
mod words;
