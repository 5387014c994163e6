//! The version of Fidrovelj, here alone; include/fidrovelj.h repeats it, and a test compares the two.
#![tactic(auto)]

/// The first number: it changes where a promise goes.
pub const MAJOR: u32 = 1;

/// The second: it changes where something is added.
pub const MINOR: u32 = 0;

/// The third: it changes where neither does.
pub const PATCH: u32 = 0;

/// All three as text.
pub const TEXT: &str = "1.0.0";
