//! A circuit as structural Verilog that synthesis tools keep: one wire and one assignment a line, each wire under `(*
//! keep *)`.
#![tactic(auto)]

pub mod bench;
pub mod meaning;
pub mod spelling;
pub mod write;
