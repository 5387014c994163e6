//! The older Bristol dialect (docs/RULES.md, Older dialect): the definitions are in specs/, the theorems about them in
//! proofs/.
//! Which header a text has, and which gates.
#![tactic(auto)]

#[derive(Clone, Copy)]
pub enum Dialect {
    Fashion,
    Old,
}

/// The bits of party one, of party two and of the output.
#[derive(Clone, Copy)]
pub struct Parties {
    pub one: u32,
    pub two: u32,
    pub output: u32,
}
