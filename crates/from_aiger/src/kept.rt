//! Output lines whose literals a table keeps.
ghost use Rattle.std.specs.Prelude.{◌≡◌, true, List, map, ℕ};
ghost use Rattle.netlist.specs.Lists.{every};
ghost use Rattle.aiger.specs.File.{literal};
ghost use Rattle.aiger.specs.Rules.{readable};
ghost use Rattle.from_aiger.specs.LineAnswers.{lines_left, BehindIs};
ghost use Rattle.from_aiger.specs.Places.{Places};
ghost use Rattle.from_aiger.specs.OutAnswers.{KeptIs, Low, HaveWires};

use crate::lines::Lines;
use crate::variables::is_readable;

/// As many output lines as the table has entries; answers the lines after them.
#[inline(never)]
pub fn keep_literals<'t>(lines: Lines<'t>, kept: &mut [u64]) -> Option<Lines<'t>>
    ensures kept { KeptIs (lines_left lines.entry) kept.new result }
    ensures following { BehindIs lines.entry result }
{
    let mut left = lines;
    for entry in kept.iter_mut() {
        let (x, next) = left.one_number()?;
        *entry = x as u64;
        left = next;
    }
    Some(left)
}

/// Whether all literals can be read.
pub fn are_readable(table: &[u32], kept: &[u64]) -> bool
    requires { Low kept.now }
    ensures { ((given wires : List ℕ) → Places table.now given wires
        → result ≡ every (readable given) (map literal kept.now)) × (result ≡ true → HaveWires table.now kept.now) }
{
    kept.iter().all(|x| is_readable(table, *x as u32))
}
