//! A text of equations into lent tables: questions 2, 16, 17, 18 and 5.
ghost use Rattle.std.specs.Prelude.{◌≡◌, ◌+◌, ◌*◌, ◌≤◌, ◌<◌, length, replicate};
ghost use Rattle.netlist.specs.Table.{half, tables};
ghost use Rattle.verilog.specs.Call.{read_equations};
ghost use Rattle.write_netlist.specs.Made.{NetlistIs};

use crate::copies::copies;
use crate::equations::equations;
use crate::form::walk;
use crate::names::Names;
use crate::rules::rules;
use netlist::{Limits, Refusal};
use write_netlist::made::NetlistNumbers;

// The deepest parentheses that question 18 admits.
const DEEPEST: usize = 32;

/// A table of names has so many numbers an entry: a text of Limits declares at most eight names for each entry.
pub const NUMBERS: usize = 8;

/// Questions 2, 16, 17, 18 and 5. The gates go into two tables, those of the assignments and then the copies of the
/// outputs; of the others, which are for names, the first and the last must be zero.
pub fn read(
    text: &[u8],
    call_limits: Limits,
    heads: &mut [u64],
    words: &mut [u64],
    links: &mut [u64],
    states: &mut [u32],
    wires: &mut [u32],
    operands: &mut [u64],
    results: &mut [u64],
) -> Result<NetlistNumbers, Refusal>
    requires cleared { (heads.old ≡ replicate (length heads.old) 0) × (wires.old ≡ replicate (length wires.old) 0)
        × (0 < length heads.old) }
    requires names_fit { (8 * call_limits.table ≤ length words.old) × (8 * call_limits.table ≤ length links.old)
        × (8 * call_limits.table ≤ length states.old)
        × (8 * call_limits.table ≤ length wires.old) }
    requires limits { (call_limits.text ≤ 32 * call_limits.table) × (8 * call_limits.table < half)
        × (call_limits.wires + call_limits.text + 1 < half)
        × (call_limits.wires ≤ length operands.old)
        × (call_limits.wires ≤ length results.old) }
    ensures { NetlistIs (read_equations call_limits text.now) (tables operands.new results.new) result }
{
    if call_limits.text < text.len() {
        return Err(Refusal::Length);
    }
    let form = walk(text).ok_or(Refusal::Grammar)?;
    let most = call_limits.table * NUMBERS;
    let k = rules(text, heads, &mut words[..most], links, states, wires).ok_or(Refusal::Names)?;
    if DEEPEST < form.deepest {
        return Err(Refusal::Depth);
    }
    let gates = form.operators + k.outputs as usize;
    let numbers = NetlistNumbers::admitted(k.inputs, gates, k.outputs, call_limits)?;
    let names = Names {
        text,
        heads,
        words: &words[..k.count],
        links: &links[..k.count],
    };
    let first = k.inputs + form.operators as u32;
    equations(
        names, wires, operands, results, k.inputs, k.assigns, k.inputs,
    );
    copies(
        names, states, wires, operands, results, k.inputs, k.ports, first,
    );
    Ok(numbers)
}
