//! The services that write masked netlists, each with working tables of its own on the heap, under the limits that a
//! netlist needs.
#![tactic(auto)]

pub mod fewer;
pub mod joined;
pub mod masked;
pub mod twins;
