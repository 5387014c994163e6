//! The counts of all wires in one block of settings, and those that they are compared with.
#![tactic(auto)]

pub mod block;
pub mod difference;
pub mod load;
pub mod nibble;
pub mod paint;
pub mod search;
