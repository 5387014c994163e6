//! A whole command line: its files are read, its answer is written. The programs above hand on their words and their
//! streams.
#![tactic(auto)]

mod carrying;
mod holding;
mod reading;
mod writing;

pub use carrying::perform;
