//! The AND lines: each puts its gates after the others and gives its variable the last one's wire. `2 ^ 32` is the
//! range of a wire's u32.
ghost use Rattle.std.specs.Prelude.{◌≡◌, List, [], ℕ, ◌+◌, ◌*◌, ◌^◌, ◌<◌, ◌≤◌, length};
ghost use Rattle.netlist.specs.declared.Gate.{Gate};
ghost use Rattle.from_aiger.specs.LineAnswers.{lines_left, OneBehind};
ghost use Rattle.netlist.specs.Table.{tables};
ghost use Rattle.from_aiger.specs.Places.{Standing};
ghost use Rattle.from_aiger.specs.AndAnswers.{AndLineIs, AndsIs, gates_said};

use crate::and_gates::and_gates;
use crate::lines::Lines;
use crate::variables::{can_give, give, is_readable};

// One AND line, with a table up to M, after n inputs and `count` gates; answers how many gates there are with its own,
// and the lines after it.
fn and_line<'t>(
    lines: Lines<'t>,
    inputs: u32,
    count: usize,
    table: &mut [u32],
    operands: &mut [u64],
    results: &mut [u64],
) -> Option<(usize, Lines<'t>)>
    requires { inputs + count + 4 < 2 ^ 32 }
    ensures line { ((most : ℕ) → length table.old ≡ most + 1 → (given wires : List ℕ) (gs : List Gate) → length wires
        ≡ most + 1
        → Standing table.old (tables operands.old results.old) inputs count given wires gs
        → AndLineIs (lines_left lines.entry) most inputs count given wires gs table.new
        (tables operands.new results.new) result) × (gates_said result ≤ count + 3) }
    ensures following { OneBehind lines.entry result }
{
    let ([left, first, second], next) = lines.next_numbers::<3>()?;
    if !is_readable(table, first) || !is_readable(table, second) || !can_give(table, left) {
        return None;
    }
    let r = and_gates(table, operands, results, first, second, inputs, count);
    give(table, left / 2, r.wire);
    Some((r.count, next))
}

/// So many AND lines after n inputs, the first gates of all, with a table up to M; answers how many gates they have,
/// and the lines after them.
pub fn ands<'t>(
    lines: Lines<'t>,
    many: u32,
    inputs: u32,
    table: &mut [u32],
    operands: &mut [u64],
    results: &mut [u64],
) -> Option<(usize, Lines<'t>)>
    requires { inputs + 3 * many + 4 < 2 ^ 32 }
    ensures ands { ((most : ℕ) → length table.old ≡ most + 1 → (given wires : List ℕ) → length wires ≡ most + 1
        → Standing table.old (tables operands.old results.old) inputs 0 given wires []
        → AndsIs (lines_left lines.entry) many most inputs given wires table.new
        (tables operands.new results.new) result) × (gates_said result ≤ 3 * many) }
    ensures following { OneBehind lines.entry result }
{
    let mut left = lines;
    let mut count = 0;
    for _ in 0..many {
        (count, left) = and_line(left, inputs, count, table, operands, results)?;
    }
    Some((count, left))
}
