//! The gate lines of a netlist's text, read one by one.
#![tactic(auto)]

pub mod calls;
mod dialect_gates;
pub mod gate_line;
pub mod gate_lines;
pub mod gate_reader;
pub mod header;
pub mod header_lines;
pub mod judged;
mod marks;
pub mod netlist_tables;
pub mod new_tables;
mod old_header;
pub mod opening;
mod operands;
pub mod reader_opening;
pub mod step;
pub mod whole;
