//! The two calls: the questions of a session, the gates of its records in the lent tables, and the text or the masked
//! text from them; then zero in every table.
ghost use Rattle.netlist.specs.Services.{Answers};
ghost use Rattle.mask.specs.Whole.{MaskAnswers};
ghost use Rattle.session.specs.SessionTextPromise.{text as text_outcome, masked as masked_outcome, TextPromise};
ghost use Rattle.session.specs.SessionTextPromise.{MaskedPromise};

use crate::asking::ask;
use crate::given::Given;
use crate::shown_text::fill;
use dialect::Dialect;
use gates::coded::CodedGates;
use mask::Head;
use netlist::{Answer, Sizes};
use write_netlist::form::Form;

// The text, with tables that are still to be cleared.
fn written(
    given: Given,
    out: &mut [u8],
    operands: &mut [u64],
    results: &mut [u64],
    sizes: Sizes,
) -> Answer
    ensures { Answers (text_outcome sizes given.entry.widths.now given.entry.outputs.now given.entry.session
        given.entry.source.now
        out.old operands.old
        results.old) out.old out.new result }
{
    let lengths = [operands.len(), results.len()];
    let count = given.session.gates;
    let shown = ask(
        given.widths,
        given.outputs,
        count,
        given.source.len(),
        &lengths,
        sizes,
    )?;
    let records = &given.source[..count as usize];
    let gates = fill(records, shown.header.input_bits as usize, operands, results)?;
    let f = Form {
        gates,
        wires: shown.header.wires as usize,
        ins: shown.widths,
        outs: shown.outputs,
        dialect: Dialect::Fashion,
    };
    write_netlist::deliver(out, f)
}

/// The session's netlist as text at the front of `out`. The tables, of any content, are zero on return.
pub fn text(
    given: Given,
    out: &mut [u8],
    operands: &mut [u64],
    results: &mut [u64],
    sizes: Sizes,
) -> Answer
    ensures { TextPromise sizes given.entry.widths.now given.entry.outputs.now given.entry.session
        given.entry.source.now out.old
        out.new operands.old
        operands.new results.old results.new result }
{
    let answer = written(given, out, operands, results, sizes);
    operands.fill(0);
    results.fill(0);
    answer
}

// What Mask gives, with tables that are still to be cleared.
fn masked_in(
    given: Given,
    codes: &[u8],
    wanted: &[u8],
    out: &mut [u8],
    out_codes: &mut [u8],
    operands: &mut [u64],
    results: &mut [u64],
    wires: &mut [u32],
    marks: &mut [u8],
    sizes: Sizes,
) -> Answer
    ensures { MaskAnswers (masked_outcome sizes given.entry.widths.now given.entry.outputs.now given.entry.session
        given.entry.source.now codes.now wanted.now
        out.old out_codes.old operands.old results.old wires.old marks.old) out.old out.new out_codes.old
        out_codes.new result }
{
    let lengths = [operands.len(), results.len(), marks.len(), wires.len()];
    let count = given.session.gates;
    let shown = ask(
        given.widths,
        given.outputs,
        count,
        given.source.len(),
        &lengths,
        sizes,
    )?;
    let records = &given.source[..count as usize];
    let gates = fill(records, shown.header.input_bits as usize, operands, results)?;
    let head = Head {
        header: shown.header,
        inputs: shown.widths,
        outputs: shown.outputs,
    };
    let coded = CodedGates::new(gates, codes, wanted);
    mask::ask_lists(out, out_codes, head, coded, wires, marks)
}

/// What Mask gives for the session's netlist: the masked text at the front of `out`, its output codes at the front of
/// `out_codes`. The tables, of any content, are zero on return.
pub fn masked(
    given: Given,
    codes: &[u8],
    wanted: &[u8],
    out: &mut [u8],
    out_codes: &mut [u8],
    operands: &mut [u64],
    results: &mut [u64],
    wires: &mut [u32],
    marks: &mut [u8],
    sizes: Sizes,
) -> Answer
    ensures { MaskedPromise sizes given.entry.widths.now given.entry.outputs.now given.entry.session
        given.entry.source.now codes.now
        wanted.now out.old
        out.new out_codes.old out_codes.new operands.old operands.new results.old results.new wires.old wires.new
        marks.old marks.new result }
{
    let answer = masked_in(
        given, codes, wanted, out, out_codes, operands, results, wires, marks, sizes,
    );
    operands.fill(0);
    results.fill(0);
    wires.fill(0);
    marks.fill(0);
    answer
}
