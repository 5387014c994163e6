#![tactic(auto)]

pub mod files;
pub mod lines;
pub mod report;
