//! A netlist from a text in one dialect to its written form in another. Questions 1 to 9 with the large limits, 15
//! where the result is in the older dialect, and 14.
#![tactic(auto)]

pub mod from_old;
mod question;
pub mod rewrite;
pub mod to_old;

ghost use Rattle.std.specs.Prelude.{length};
ghost use Rattle.netlist.specs.Outcome.{ask};
ghost use Rattle.netlist.specs.Services.{delivered, Answers};
ghost use Rattle.gates.specs.Gates.{gates_in};
ghost use Rattle.write_netlist.specs.Text.{text_of};
ghost use Rattle.convert.specs.Convert.{call, has_form, Converts};

use crate::question::has_form;
use dialect::Dialect;
use gates::Gates;
use netlist::{Answer, Refusal, Sizes};
use write_netlist::form::Form;

// Question 15, and then 14 and the text.
fn write(out: &mut [u8], form: Form) -> Answer
    ensures { let F = form.entry
        in Answers (ask 15 (has_form F.dialect (gates_in F.gates) (length F.ins.now) (length F.outs.now))
        (delivered (length out.old) (text_of F))) out.old out.new result }
{
    if !has_form(form.gates, form.ins.len(), form.outs.len(), form.dialect) {
        return Err(Refusal::OldForm);
    }
    write_netlist::deliver(out, form)
}

// The answer, with tables that are still to be cleared. None is lent but the reader's own.
fn answer(
    text: &[u8],
    out: &mut [u8],
    operands: &mut [u64],
    results: &mut [u64],
    marks: &mut [u8],
    sizes: Sizes,
    from: Dialect,
    to: Dialect,
) -> Answer
    ensures { Answers (call from to sizes text.now out.old operands.old results.old
        marks.old) out.old out.new result }
{
    let mut inputs = [0u32; 17];
    let mut outputs = [0u32; 16];
    let h = reader::whole::read_in(
        text,
        &mut inputs,
        &mut outputs,
        operands,
        results,
        marks,
        &[],
        sizes.masked_limits(),
        from,
    )?;
    let gates = Gates {
        operands,
        results,
        count: h.gates as usize,
    };
    let f = Form {
        gates,
        wires: h.wires as usize,
        ins: &inputs[..h.input_values],
        outs: &outputs[..h.output_values],
        dialect: to,
    };
    write(out, f)
}

/// The netlist of a text in one dialect, written in the other at the front of `out`. The tables, of any content, are
/// zero on return.
pub fn convert(
    text: &[u8],
    out: &mut [u8],
    operands: &mut [u64],
    results: &mut [u64],
    marks: &mut [u8],
    sizes: Sizes,
    from: Dialect,
    to: Dialect,
) -> Answer
    ensures { Converts from to sizes text.now out.old out.new operands.old operands.new
        results.old results.new marks.old marks.new result }
{
    let r = answer(text, out, operands, results, marks, sizes, from, to);
    operands.fill(0);
    results.fill(0);
    marks.fill(0);
    r
}
