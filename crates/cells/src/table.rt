//! Truth tables in one word: bit j is what a function gives in setting j, in which input i is bit i of j.

ghost use Rattle.std.specs.Prelude.{◌≡◌, ◌<◌, ◌&&◌, ◌||◌, not, nat_eq, ℕ};
ghost use Rattle.netlist.specs.Eval.{differs};
ghost use Rattle.cells.specs.Tables.{table_bit};

/// The most inputs of a cell.
pub const MOST_INPUTS: usize = 6;

/// The table that is zero in each setting.
pub const NEVER: u64 = 0;

/// The table that is one in each setting.
pub const ALWAYS: u64 = 0xffff_ffff_ffff_ffff;

/// The table of each input.
pub const INPUTS: [u64; 6] = [
    0xaaaa_aaaa_aaaa_aaaa,
    0xcccc_cccc_cccc_cccc,
    0xf0f0_f0f0_f0f0_f0f0,
    0xff00_ff00_ff00_ff00,
    0xffff_0000_ffff_0000,
    0xffff_ffff_0000_0000,
];

/// The function where an input is zero, whatever that input is.
pub fn at_zero(table: u64, input: usize) -> u64
    requires { input < 6 }
{
    let part = table & !INPUTS[input];
    part | part << (1u32 << input)
}

/// The function where an input is one, whatever that input is.
pub fn at_one(table: u64, input: usize) -> u64
    requires { input < 6 }
{
    let part = table & INPUTS[input];
    part | part >> (1u32 << input)
}

/// The table that is one where just one of two is.
#[tactic(auto, using(crate::proofs::TableBits::table_bit_xor))]
pub fn sum(left: u64, right: u64) -> u64
    ensures { (j : ℕ) → table_bit result j ≡ differs (table_bit left j) (table_bit right j) }
{
    left ^ right
}

/// The table that is one where both are.
#[tactic(auto, using(crate::proofs::TableBits::table_bit_and))]
pub fn product(left: u64, right: u64) -> u64
    ensures { (j : ℕ) → table_bit result j ≡ table_bit left j && table_bit right j }
{
    left & right
}

/// The table that is one where one of two or both are.
#[tactic(auto, using(crate::proofs::TableBits::table_bit_or))]
pub fn union(left: u64, right: u64) -> u64
    ensures { (j : ℕ) → table_bit result j ≡ table_bit left j || table_bit right j }
{
    left | right
}

/// The table that is one where another is zero.
#[tactic(auto, using(crate::proofs::TableBits::table_bit_not))]
pub fn inverse(table: u64) -> u64
    ensures { (j : ℕ) → j < 64 → table_bit result j ≡ not (table_bit table j) }
{
    !table
}

/// The table that is the same in each setting.
#[tactic(auto, using(crate::proofs::TableBits::table_bit_always, crate::proofs::TableBits::table_bit_never))]
pub fn constant(value: u32) -> u64
    ensures { (j : ℕ) → j < 64 → table_bit result j ≡ nat_eq value 1 }
{
    if value == 1 { ALWAYS } else { NEVER }
}
