//! The wires of variables.
ghost use Rattle.std.specs.Prelude.{◌≡◌, true, List, ℕ, ◌+◌, ◌/◌, ◌<◌, ◌^◌, ◌≤◌, length, set, get_or};
ghost use Rattle.aiger.specs.File.{literal};
ghost use Rattle.aiger.specs.Rules.{readable, can_give};
ghost use Rattle.from_aiger.specs.Places.{Places};

use gates::entries::entry;

/// Whether a literal can be read: a constant, or of a variable that is given.
pub fn is_readable(table: &[u32], variable: u32) -> bool
    ensures { ((given wires : List ℕ) → Places table.now given wires → result ≡ readable given (literal variable))
        × (result ≡ true → 2 ≤ variable → 1 ≤ get_or table.now (variable / 2) 0) }
{
    variable < 2 || entry(table, (variable / 2) as usize) != 0
}

/// Whether a literal can be given: even, above 1, of a variable that has an entry and is not given yet. The last entry
/// is M's.
pub fn can_give(table: &[u32], variable: u32) -> bool
    ensures { ((most : ℕ) → length table.now ≡ most + 1 → (given wires : List ℕ) → Places table.now given wires
        → result ≡ can_give most given (literal variable)) × (result ≡ true → variable / 2 < length table.now) }
{
    2 <= variable && variable % 2 == 0 && table.get((variable / 2) as usize) == Some(&0)
}

/// Gives a variable its wire.
pub fn give(table: &mut [u32], variable: u32, wire: u32)
    requires { (variable < length table.old) × (wire + 1 < 2 ^ 32) }
    ensures { table.new ≡ set table.old variable (wire + 1) }
{
    let i = variable as usize;
    table[i] = wire + 1;
}
