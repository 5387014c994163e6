//! The input lines: each gives a variable the next wire.
ghost use Rattle.std.specs.Prelude.{◌≡◌, List, ℕ, ◌+◌, ◌^◌, ◌<◌, length, replicate};
ghost use Rattle.from_aiger.specs.LineAnswers.{lines_left, BehindIs};
ghost use Rattle.from_aiger.specs.Places.{Places};
ghost use Rattle.from_aiger.specs.StepAnswers.{InputIs, InputsIs};

use crate::lines::Lines;
use crate::variables::{can_give, give};

// One input line; answers the lines after it.
fn input<'t>(lines: Lines<'t>, wire: u32, table: &mut [u32]) -> Option<Lines<'t>>
    requires { wire + 1 < 2 ^ 32 }
    ensures line { (most : ℕ) → length table.old ≡ most + 1 → (given wires : List ℕ) → Places table.old given wires
        → InputIs (lines_left lines.entry) wire most given table.old table.new result }
    ensures following { BehindIs lines.entry result }
{
    let (x, next) = lines.one_number()?;
    if !can_give(table, x) {
        return None;
    }
    give(table, x / 2, wire);
    Some(next)
}

/// So many input lines, with a table up to M that gives nothing yet; answers the lines after them.
#[inline(never)]
pub fn inputs<'t>(lines: Lines<'t>, count: u32, table: &mut [u32]) -> Option<Lines<'t>>
    requires { table.old ≡ replicate (length table.old) 0 }
    ensures inputs { (most : ℕ) → length table.old ≡ most + 1 → InputsIs (lines_left lines.entry) count most table.new
        result }
    ensures following { BehindIs lines.entry result }
{
    let mut left = lines;
    for i in 0..count {
        left = input(left, i, table)?;
    }
    Some(left)
}
