//! Fewer mask changes (docs/RULES.md, Fewest changes): specs/ has the choices of a call, the changes under each, the
//! first with the fewest, the floor and the outcome; proofs/ what they are worth, and which choices need not be tried.
#![tactic(auto)]

pub mod apply_choice;
pub mod choice;
pub mod gate_walk;
pub mod inputs;
pub mod next;
pub mod outputs;
pub mod search;
pub mod spans;
pub mod twices;
