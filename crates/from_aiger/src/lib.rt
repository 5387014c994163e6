//! An AIGER file as a netlist in the written form (docs/RULES.md, AIGER). Questions 1, 2, 19, 20, 19, 5 and 14 with the
//! small limits.
#![tactic(auto)]

pub mod and_gates;
pub mod ands;
pub mod between;
pub mod body;
pub mod counts;
pub mod head;
pub mod inputs;
pub mod keep;
pub mod kept;
pub mod lines;
pub mod numbers;
pub mod output_gates;
pub mod output_marks;
pub mod read;
pub mod variables;

ghost use Rattle.netlist.specs.Services.{Answers};
ghost use Rattle.from_aiger.specs.Promise.{call, Promise};

use gates::Gates;
use netlist::{Answer, Sizes};

// The file read, and its netlist's text.
fn answer(
    text: &[u8],
    out: &mut [u8],
    operands: &mut [u64],
    results: &mut [u64],
    variables: &mut [u32],
    sizes: Sizes,
) -> Answer
    ensures { Answers (call sizes text.now out.old operands.old results.old
        variables.old) out.old out.new result }
{
    let m = crate::read::read(text, operands, results, variables, sizes.source_limits())?;
    let gates = Gates {
        operands,
        results,
        count: m.gates,
    };
    write_netlist::made::write(out, m, gates)
}

/// The netlist made of the AIGER file in `text`, in the written form, at the front of `out`. The tables, of any
/// content, are zero on return.
pub fn from_aiger(
    text: &[u8],
    out: &mut [u8],
    operands: &mut [u64],
    results: &mut [u64],
    variables: &mut [u32],
    sizes: Sizes,
) -> Answer
    ensures { Promise sizes text.now out.old out.new operands.old operands.new
        results.old results.new variables.old variables.new result }
{
    let r = answer(text, out, operands, results, variables, sizes);
    operands.fill(0);
    results.fill(0);
    variables.fill(0);
    r
}
