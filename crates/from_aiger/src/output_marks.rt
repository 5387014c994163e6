//! Output lines that are more than a table has entries. Their netlist is too large, so it is enough to know which
//! variables they put out: these get a mark each.
ghost use Rattle.std.specs.Prelude.{◌≡◌, List, ℕ, ◌+◌, ◌/◌, ◌<◌, length, replicate};
ghost use Rattle.netlist.specs.Lists.{every};
ghost use Rattle.aiger.specs.File.{Literal};
ghost use Rattle.aiger.specs.Rules.{readable};
ghost use Rattle.from_aiger.specs.LineAnswers.{lines_left, BehindIs};
ghost use Rattle.from_aiger.specs.Places.{Places};
ghost use Rattle.from_aiger.specs.OutAnswers.{marked, PutOut, MarksIs};

use crate::lines::Lines;

// A mark on the variable of a literal that is no constant.
fn mark(marks: &mut [u64], variable: u32)
    requires { variable / 2 < length marks.old }
    ensures { marks.new ≡ marked marks.old variable }
{
    if 2 <= variable {
        marks[(variable / 2) as usize] = 1;
    }
}

/// So many output lines, with a table up to M that has no mark yet; answers the lines after them.
#[inline(never)]
pub fn mark_literals<'t>(lines: Lines<'t>, many: u32, marks: &mut [u64]) -> Option<Lines<'t>>
    requires { marks.old ≡ replicate (length marks.old) 0 }
    ensures marks { (most : ℕ) → length marks.old ≡ most + 1 → MarksIs (lines_left lines.entry) many most marks.new
        result }
    ensures following { BehindIs lines.entry result }
{
    let mut left = lines;
    for _ in 0..many {
        let (x, next) = left.one_number()?;
        if marks.len() <= (x / 2) as usize {
            return None;
        }
        mark(marks, x);
        left = next;
    }
    Some(left)
}

/// Whether all variables that have a mark are given: those up to M, of which each table has an entry.
pub fn are_given(table: &[u32], marks: &[u64]) -> bool
    requires { length table.now ≡ length marks.now }
    ensures { (most : ℕ) → length marks.now ≡ most + 1 → (given wires : List ℕ) (are : List Literal)
        → Places table.now given wires
        → PutOut most marks.now are → result ≡ every (readable given) are }
{
    table
        .iter()
        .zip(marks)
        .all(|(wire, mark)| *mark == 0 || *wire != 0)
}
