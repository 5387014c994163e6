//! Join: two masked blocks over the same two mask bits as one netlist, the outputs of the first the inputs of the
//! second. Questions 1 to 11 with the large limits to the first text and then to the second, 25, 5 of the joined
//! netlist, and 14.
#![tactic(auto)]

pub mod appended_gates;
pub mod seam;

ghost use Rattle.std.specs.Prelude.{◌≡◌, true, [], ◌∷◌, ◌-◌, ◌≤◌, length};
ghost use Rattle.netlist.specs.Lists.{every};
ghost use Rattle.netlist.specs.Netlist.{Netlist, masked_limits};
ghost use Rattle.netlist.specs.Outcome.{and_then};
ghost use Rattle.netlist.specs.Services.{tables_long, Answers};
ghost use Rattle.netlist.specs.Table.{tables};
ghost use Rattle.join.specs.Call.{is_secret, read_block, join_outcome};
ghost use Rattle.join.specs.Blocks.{BlockIs, Numbers, First, Second, seam_holds};
ghost use Rattle.join.specs.Promise.{call, Promise};

use crate::seam::SeamNumbers;
use dialect::Dialect;
use gates::Gates;
use netlist::{Answer, Refusal, Sizes};
use reader::header::Header;
use write_netlist::form::Form;

// Questions 1 to 11 of a text with its input codes, as `reader::whole::read` puts 1 to 9.
fn read_block(
    text: &[u8],
    codes: &[u8],
    inputs: &mut [u32; 17],
    outputs: &mut [u32; 16],
    operands: &mut [u64],
    results: &mut [u64],
    marks: &mut [u8],
    others: &[usize],
    sizes: Sizes,
) -> Result<Header, Refusal>
    ensures { BlockIs (masked_limits sizes) (length operands.old ∷ length results.old ∷ length marks.old ∷ others.now)
        text.now codes.now inputs.new outputs.new
        (tables operands.new results.new) result }
{
    let l = sizes.masked_limits();
    let h = reader::whole::read(text, inputs, outputs, operands, results, marks, others, l)?;
    questions::masks::ask_codes(h.input_bits, &inputs[..h.input_values], codes)?;
    Ok(h)
}

// Whether no code is 0.
fn all_secret(codes: &[u8]) -> bool
    ensures { result ≡ every is_secret codes.now }
{
    !codes.contains(&0)
}

// Question 25.
fn seam_holds(first: Header, out_codes: &[u8], second: Header, codes: &[u8]) -> bool
    ensures { result ≡ seam_holds first out_codes.now second codes.now }
{
    out_codes.len() as u64 == first.output_bits
        && out_codes == codes
        && all_secret(codes)
        && second.output_bits <= second.gates as u64
}

// Questions 25, 5 and 14 and the joined text, of two blocks that were read: the second's gates go after the first's.
fn deliver<'w>(
    out_codes: &[u8],
    codes: &[u8],
    out: &mut [u8],
    left: Header,
    right: Header,
    inputs: &'w [u32],
    outputs: &'w [u32],
    operands: &mut [u64],
    results: &mut [u64],
    words: &[u64],
    base: &[u64],
    sizes: Sizes,
) -> Answer
    requires blocks { Numbers left (tables operands.old results.old) × Numbers right (tables words.now base.now)
        × (length codes.now ≡ right.input_bits - 2) }
    requires wires_in_bounds { ((masked_limits sizes).wires ≤ length operands.old)
        × ((masked_limits sizes).wires ≤ length results.old) }
    ensures { (A B : Netlist) → First left inputs.now (tables operands.old results.old) A
        → Second right outputs.now (tables words.now base.now) B
        → Answers (join_outcome (masked_limits sizes) out_codes.now codes.now (length out.old) A B) out.old out.new
        result }
{
    if !seam_holds(left, out_codes, right, codes) {
        return Err(Refusal::Seam);
    }
    let wires = left.wires as u64 + right.wires as u64 - right.input_bits;
    if (sizes.masked_limits().wires as u64) < wires {
        return Err(Refusal::Limits);
    }
    let seam = SeamNumbers {
        wires: left.wires,
        outs: left.output_bits as u32,
        ins: left.input_bits as u32,
        second: right.wires,
        inner: right.input_bits as u32,
    };
    let count = left.gates as usize;
    let second = Gates {
        operands: words,
        results: base,
        count: right.gates as usize,
    };
    crate::appended_gates::append(operands, results, count, second, seam);
    let gates = Gates {
        operands,
        results,
        count: count + second.count,
    };
    let f = Form {
        gates,
        wires: wires as usize,
        ins: inputs,
        outs: outputs,
        dialect: Dialect::Fashion,
    };
    write_netlist::deliver(out, f)
}

// The answer once the first text is read: questions 2 to 11 of the second, and then 25, 5 and 14.
fn read_second(
    second: &[u8],
    out_codes: &[u8],
    codes: &[u8],
    out: &mut [u8],
    left: Header,
    inputs: &[u32],
    operands: &mut [u64],
    results: &mut [u64],
    marks: &mut [u8],
    words: &mut [u64],
    base: &mut [u64],
    sizes: Sizes,
) -> Answer
    requires first { Numbers left (tables operands.old results.old) }
    requires tables_long { tables_long (masked_limits sizes)
        (length operands.old ∷ length results.old ∷ length marks.old
        ∷ length words.old ∷ length base.old ∷ []) ≡ true }
    ensures { (A : Netlist) → First left inputs.now (tables operands.old results.old) A
        → Answers (and_then (read_block (masked_limits sizes) second.now codes.now)
        (join_outcome (masked_limits sizes) out_codes.now codes.now (length out.old) A)) out.old out.new result }
{
    let mut inner = [0u32; 17];
    let mut outputs = [0u32; 16];
    let b = read_block(
        second,
        codes,
        &mut inner,
        &mut outputs,
        words,
        base,
        marks,
        &[],
        sizes,
    )?;
    let outputs = &outputs[..b.output_values];
    deliver(
        out_codes, codes, out, left, b, inputs, outputs, operands, results, words, base, sizes,
    )
}

// The answer, with tables that are still to be cleared.
fn answer(
    first: &[u8],
    second: &[u8],
    codes: &[u8],
    out_codes: &[u8],
    inner: &[u8],
    out: &mut [u8],
    operands: &mut [u64],
    results: &mut [u64],
    marks: &mut [u8],
    words: &mut [u64],
    base: &mut [u64],
    sizes: Sizes,
) -> Answer
    ensures { Answers (call sizes first.now second.now codes.now out_codes.now inner.now
        out.old operands.old results.old marks.old words.old base.old)
        out.old out.new result }
{
    let mut inputs = [0u32; 17];
    let mut outputs = [0u32; 16];
    let a = read_block(
        first,
        codes,
        &mut inputs,
        &mut outputs,
        operands,
        results,
        marks,
        &[words.len(), base.len()],
        sizes,
    )?;
    let inputs = &inputs[..a.input_values];
    read_second(
        second, out_codes, inner, out, a, inputs, operands, results, marks, words, base, sizes,
    )
}

/// The joined netlist of the texts `first`, with its input and output codes, and `second`, with its input codes, at the
/// front of `out`. The tables, of any content, are zero on return.
pub fn join(
    first: &[u8],
    second: &[u8],
    codes: &[u8],
    out_codes: &[u8],
    inner: &[u8],
    out: &mut [u8],
    operands: &mut [u64],
    results: &mut [u64],
    marks: &mut [u8],
    words: &mut [u64],
    base: &mut [u64],
    sizes: Sizes,
) -> Answer
    ensures { Promise sizes first.now second.now codes.now out_codes.now inner.now
        out.old out.new operands.old operands.new results.old results.new
        marks.old marks.new words.old words.new base.old base.new result }
{
    let r = answer(
        first, second, codes, out_codes, inner, out, operands, results, marks, words, base, sizes,
    );
    operands.fill(0);
    results.fill(0);
    marks.fill(0);
    words.fill(0);
    base.fill(0);
    r
}
