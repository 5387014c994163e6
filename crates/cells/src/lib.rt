//! Cells of up to six inputs, as synthesis tools write them, and the gates that compute them.
#![tactic(auto)]

pub mod build;
mod check;
pub mod cover;
mod emit;
pub mod order;
mod outputs;
pub mod table;
pub mod verify;
