//! Covers: a function as the cubes on which it is one, or those on which it is zero.

ghost use Rattle.std.specs.Prelude.{◌≡◌, ◌<◌, ℕ, map};
ghost use Rattle.cells.specs.Tables.{table_bit};
ghost use Rattle.cells.specs.Covers.{literal_admits, literals_admit};

use crate::table::{ALWAYS, NEVER, inverse, product, union};

/// What a cube asks of one input.
#[derive(Clone, Copy, Debug, PartialEq, Eq)]
pub enum Literal {
    Zero,
    One,
    Any,
}

/// What a cube asks of each input of its cell. Entries past the last input count for nothing.
#[derive(Clone, Copy, Debug, PartialEq, Eq)]
pub struct Cube {
    pub literals: [Literal; 6],
}

/// The function that is `value` in the settings that some cube admits, and the other bit elsewhere.
#[derive(Debug, Drop)]
pub struct Cover {
    pub cubes: Vec<Cube>,
    pub value: bool,
}

/// The table of a literal of an input with this table.
#[tactic(auto, using(crate::proofs::TableBits::table_bit_always))]
fn literal_table(literal: Literal, input: u64) -> u64
    ensures { (j : ℕ) → j < 64 → table_bit result j ≡ literal_admits literal (table_bit input j) }
{
    match literal {
        Literal::Zero => inverse(input),
        Literal::One => input,
        Literal::Any => ALWAYS,
    }
}

/// The table of literals over inputs with these tables.
#[tactic(auto, using(crate::proofs::TableBits::table_bit_always))]
fn literals_table(literals: &[Literal], inputs: &[u64]) -> u64
    ensures { (j : ℕ) → j < 64 → table_bit result j
        ≡ literals_admit literals.now (map (λ t. table_bit t j) inputs.now) }
{
    let [literal, more_literals @ ..] = literals else {
        return ALWAYS;
    };
    let [input, more_inputs @ ..] = inputs else {
        return ALWAYS;
    };
    product(
        literal_table(*literal, *input),
        literals_table(more_literals, more_inputs),
    )
}

impl Cover {
    ghost use Rattle.cells.specs.Covers.{cover_bit};

    /// The table of the cover over inputs with these tables.
    pub fn table(&self, inputs: &[u64]) -> u64
        ensures { (j : ℕ) → j < 64 → table_bit result j ≡ cover_bit self.now (map (λ t. table_bit t j) inputs.now) }
    {
        let mut table = NEVER;
        for cube in &self.cubes {
            table = union(table, literals_table(&cube.literals, inputs));
        }
        if self.value { table } else { inverse(table) }
    }
}
