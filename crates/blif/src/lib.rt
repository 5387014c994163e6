//! BLIF, as yosys and abc write it, read to circuits and written from them.
#![tactic(auto)]

pub mod assemble;
pub mod error;
pub mod instances;
mod judged;
pub mod models;
pub mod parse;
pub mod ports;
pub mod read;
mod reads;
pub mod statements;
pub mod write;
