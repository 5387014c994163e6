//! Netlists as a command reads them: their shape, what they are made of, and other notations brought into Bristol
//! Fashion.
#![tactic(auto)]

pub mod census;
pub mod conversions;
pub mod shape;
