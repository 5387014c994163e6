//! Equations in Verilog as a netlist in the written form (docs/RULES.md, Equations). Questions 1, 2, 16, 17, 18, 5 and
//! 14 with the small limits.
#![tactic(auto)]

pub mod assigns;
pub mod copies;
pub mod declarations;
pub mod equations;
pub mod expression;
pub mod form;
pub mod names;
pub mod ports;
pub mod put_gates;
pub mod read;
pub mod rules;
pub mod states;
pub mod tokens;
pub mod wires;

ghost use Rattle.std.specs.Prelude.{◌≡◌, ◌*◌, ◌≤◌, ◌<◌, length, replicate};
ghost use Rattle.netlist.specs.Netlist.{source_limits as limits_of_source};
ghost use Rattle.netlist.specs.Outcome.{and_then};
ghost use Rattle.netlist.specs.Services.{rewrite_outcome, Answers};
ghost use Rattle.verilog.specs.Call.{read_equations};
ghost use Rattle.from_verilog.specs.Promise.{call, Promise};

use crate::read::NUMBERS;
use gates::Gates;
use netlist::{Answer, Refusal, Sizes};

// Questions 2, 16, 17, 18, 5 and 14, with tables that question 1 admits.
fn read_and_write(
    text: &[u8],
    out: &mut [u8],
    operands: &mut [u64],
    results: &mut [u64],
    heads: &mut [u64],
    words: &mut [u64],
    links: &mut [u64],
    states: &mut [u32],
    wires: &mut [u32],
    sizes: Sizes,
) -> Answer
    requires gates_fit { ((limits_of_source sizes).table ≤ length operands.old)
        × ((limits_of_source sizes).table ≤ length results.old) }
    requires cleared { (heads.old ≡ replicate (length heads.old) 0) × (wires.old ≡ replicate (length wires.old) 0)
        × (0 < length heads.old) }
    requires names_fit { (8 * (limits_of_source sizes).table ≤ length words.old)
        × (8 * (limits_of_source sizes).table ≤ length links.old)
        × (8 * (limits_of_source sizes).table ≤ length states.old)
        × (8 * (limits_of_source sizes).table ≤ length wires.old) }
    ensures { Answers (and_then (read_equations (limits_of_source sizes) text.now) (rewrite_outcome (length out.old)))
        out.old out.new result }
{
    let m = crate::read::read(
        text,
        sizes.source_limits(),
        heads,
        words,
        links,
        states,
        wires,
        operands,
        results,
    )?;
    let gates = Gates {
        operands,
        results,
        count: m.gates,
    };
    write_netlist::made::write(out, m, gates)
}

// Question 1, and then the others.
fn answer(
    text: &[u8],
    out: &mut [u8],
    operands: &mut [u64],
    results: &mut [u64],
    heads: &mut [u64],
    words: &mut [u64],
    links: &mut [u64],
    states: &mut [u32],
    wires: &mut [u32],
    sizes: Sizes,
) -> Answer
    ensures { Answers (call sizes text.now out.old operands.old results.old
        heads.old words.old links.old states.old wires.old) out.old
        out.new result }
{
    let lengths = [
        operands.len(),
        results.len(),
        heads.len() / NUMBERS,
        words.len() / NUMBERS,
        links.len() / NUMBERS,
        states.len() / NUMBERS,
        wires.len() / NUMBERS,
    ];
    if !sizes.source_limits().admit(&lengths) {
        return Err(Refusal::Tables);
    }
    heads.fill(0);
    wires.fill(0);
    read_and_write(
        text, out, operands, results, heads, words, links, states, wires, sizes,
    )
}

/// The netlist made of the equations in `text`, in the written form, at the front of `out`. The tables, of any content,
/// are zero on return; each entry of the last five, which are for names, has eight numbers.
pub fn from_verilog(
    text: &[u8],
    out: &mut [u8],
    operands: &mut [u64],
    results: &mut [u64],
    heads: &mut [u64],
    words: &mut [u64],
    links: &mut [u64],
    states: &mut [u32],
    wires: &mut [u32],
    sizes: Sizes,
) -> Answer
    ensures { Promise sizes text.now out.old out.new operands.old operands.new
        results.old results.new heads.old heads.new words.old words.new
        links.old links.new states.old states.new wires.old wires.new result }
{
    let r = answer(
        text, out, operands, results, heads, words, links, states, wires, sizes,
    );
    operands.fill(0);
    results.fill(0);
    heads.fill(0);
    words.fill(0);
    links.fill(0);
    states.fill(0);
    wires.fill(0);
    r
}
