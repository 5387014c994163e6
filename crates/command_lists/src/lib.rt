//! Lists that a command line or a file gives in words: mask codes, bits and numbers of input values, pairs of wires.
#![tactic(auto)]

pub mod codes;
pub mod failure;
pub mod numbers;
pub mod pairs;
pub mod values;
