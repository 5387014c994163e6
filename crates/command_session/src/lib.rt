//! `fidrovelj session`: a source grows gate by gate from lines of text, and each line is answered with its masked
//! gates. A refused line leaves the session as it was.
#![tactic(auto)]

pub mod bench;
pub mod opening;
mod steps;
mod telling;
