//! The checks, each with working tables of its own on the heap, under the limits that a netlist needs, and the choice
//! among them.
#![tactic(auto)]

pub mod certified;
pub mod choice;
pub mod exact;
pub mod verdict;
pub mod wide;
