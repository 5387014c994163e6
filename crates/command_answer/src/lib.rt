//! What every subcommand's answer is made of: output, files, remarks, status; the files that were read; failures in
//! words.
#![tactic(auto)]

pub mod answer;
pub mod codes;
pub mod failure;
pub mod files;
pub mod grouped;
pub mod netlists;
