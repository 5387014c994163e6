//! Questions 1 to 9 with the large limits, 11 and 14 of a netlist in a text, and its outputs on a list.
ghost use Rattle.std.specs.Prelude.{◌≤◌, length};
ghost use Rattle.netlist.specs.Netlist.{Netlist};
ghost use Rattle.netlist.specs.Services.{Cleared};
ghost use Rattle.gates.specs.Gates.{WiredGates, HoldsGates};
ghost use Rattle.run.specs.Entries.{Gives, list_outcome, list_call};

use crate::entry::Entry;
use gates::Gates;
use netlist::{Answer, Refusal, Sizes};
use reader::header::Header;

/// Questions 11 and 14 and the outputs, from a header's numbers and its netlist's gates.
pub fn evaluate<T: Entry>(
    out: &mut [T],
    list: &[T],
    header: Header,
    gates: Gates,
    words: &mut [u64],
) -> Answer
    requires { WiredGates gates header.wires × (header.output_bits ≤ header.wires) × (header.wires ≤ length words.old) }
    ensures { (N : Netlist) → HoldsGates gates.entry header.wires header.input_bits header.output_bits N
        → Gives (list_outcome T.admits T.outputs list.now (length out.old) N) out.old out.new result }
{
    let ins = header.input_bits as usize;
    let outs = header.output_bits as usize;
    if !T::admits(list, ins) {
        return Err(Refusal::Inputs);
    }
    if out.len() < outs {
        return Err(Refusal::Room);
    }
    let words = &mut words[..header.wires as usize];
    T::outputs(gates, list, words, &mut out[..outs]);
    Ok(outs)
}

// The answer, with tables that are still to be cleared.
fn answer<T: Entry>(
    text: &[u8],
    list: &[T],
    out: &mut [T],
    operands: &mut [u64],
    results: &mut [u64],
    marks: &mut [u8],
    words: &mut [u64],
    sizes: Sizes,
) -> Answer
    ensures { Gives (list_call T.admits T.outputs sizes text.now list.now out.old operands.old
        results.old marks.old words.old) out.old out.new result }
{
    let mut inputs = [0u32; 17];
    let mut outputs = [0u32; 16];
    let h = reader::whole::read(
        text,
        &mut inputs,
        &mut outputs,
        operands,
        results,
        marks,
        &[words.len()],
        sizes.masked_limits(),
    )?;
    let gates = Gates {
        operands,
        results,
        count: h.gates as usize,
    };
    evaluate(out, list, h, gates, words)
}

/// The outputs of the netlist in `text` on `list`, at the front of `out`. The tables, of any content, are zero on
/// return.
pub fn run<T: Entry>(
    text: &[u8],
    list: &[T],
    out: &mut [T],
    operands: &mut [u64],
    results: &mut [u64],
    marks: &mut [u8],
    words: &mut [u64],
    sizes: Sizes,
) -> Answer
    ensures answers { Gives (list_call T.admits T.outputs sizes text.now list.now out.old operands.old
        results.old marks.old words.old) out.old out.new result }
    ensures cleared { Cleared operands.old operands.new × Cleared results.old results.new
        × Cleared marks.old marks.new × Cleared words.old words.new }
{
    let r = answer(text, list, out, operands, results, marks, words, sizes);
    operands.fill(0);
    results.fill(0);
    marks.fill(0);
    words.fill(0);
    r
}
