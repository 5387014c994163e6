//! One wire of a netlist: its polynomial over the input bits and the mask pair, how many settings have each count, and a
//! witness of a leak. Questions 1 to 12 with the limits of a masked netlist, 21 and 14.
#![tactic(auto)]

pub mod counts;
pub mod polynomial;
pub mod tally;
pub mod transform;
pub mod truth;
