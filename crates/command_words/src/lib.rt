//! From the words of a command line to a plan: which files are wanted, what is to be done with them, and where the
//! result goes. Nothing is read or written here.
#![tactic(auto)]

pub mod commands;
pub mod format;
mod options;
pub mod plan;
pub mod reading;
pub mod stop;
pub mod tasks;

pub use reading::plan_of;
pub use stop::{Stop, VERSION};
