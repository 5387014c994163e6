//! Fewer mask changes (docs/RULES.md, Fewest changes): Mask under the first choice with the fewest mask changes, of the
//! codes of free inputs and of the order of the operands of each AND. Questions 1 to 9 with the small limits, 11 with
//! codes 0 to 4, 13, 22 and 14.
#![tactic(auto)]

ghost use Rattle.std.specs.Prelude.{◌≤◌, [], ◌∷◌, ◌++◌, length};
ghost use Rattle.netlist.specs.Netlist.{Netlist};
ghost use Rattle.netlist.specs.Read.{WellFormed};
ghost use Rattle.masking.specs.Mask.{mask_netlist};
ghost use Rattle.netlist.specs.Table.{tables, Wired};
ghost use Rattle.gates.specs.Gates.{tables_of};
ghost use Rattle.mask.specs.Whole.{Source as MaskSource};
ghost use Rattle.mask.specs.Fronts.{Read};
ghost use Rattle.fewest.specs.Call.{deliver as delivery, fewest_outcome};
ghost use Rattle.fewest.specs.Search.{Source};
ghost use Rattle.mask_fewest.specs.Stages.{Room, Choosable, Chose, Givable, given, room, FewestAnswers};
ghost use Rattle.mask_fewest.specs.Promise.{call, Promise};

use fewest::search::Tally;
use gates::Gates;
use gates::coded::CodedGates;
use mask::Head;
use netlist::{Answer, Refusal, Sizes};
use reader::header::Header;
use reader::whole::read;

// The choice that is given: its ANDs are swapped in the table of operands, its input codes stand at the front of
// `ways`; its changes and the floor. `codes` and `wanted` come without gates, here and in `deliver`, since `operands`
// is written after the search.
fn choose<'a>(
    codes: &'a [u8],
    wanted: &'a [u8],
    budget: u64,
    header: Header,
    operands: &mut [u64],
    results: &'a [u64],
    wires: &mut [u32],
    marks: &mut [u8],
    ways: &mut [u8],
    best: &mut [u8],
    spans: &mut [u64],
) -> Tally
    requires { Choosable header (tables operands.old results.now) codes.now wanted.now wires.old marks.old ways.old
        best.old
        spans.old × (1 ≤ budget) }
    ensures { Wired (tables operands.new results.now) header.wires header.gates
        × ((N : Netlist)
        → Source (tables operands.old results.now) header.gates codes.now wanted.now header.wires N
        → Chose N codes.now wanted.now budget (tables operands.new results.now) header.gates
        ways.new result) }
{
    let all = header.wires as usize;
    let count = header.gates as usize;
    let source = CodedGates {
        gates: Gates {
            operands,
            results,
            count,
        },
        codes,
        wanted,
    };
    let r = fewest::search::search(
        source,
        budget,
        &mut ways[..all],
        &mut best[..all],
        &mut marks[..all],
        &mut wires[..all],
        &mut spans[..all],
    );
    fewest::apply_choice::swap(operands, &results[..count], &best[codes.len()..]);
    fewest::apply_choice::codes(codes, best, ways);
    r
}

// The masked text and the output codes of a source, and where question 14 gets a yes also the codes and the tally.
fn give(
    out: &mut [u8],
    in_codes: &mut [u8],
    out_codes: &mut [u8],
    tally: &mut [u64],
    head: Head,
    found: Tally,
    source: CodedGates,
    wires: &mut [u32],
    marks: &mut [u8],
) -> Answer
    requires { Givable head.header (tables_of source.gates) source.gates.count source.codes.now source.wanted.now
        head.inputs.now
        wires.old marks.old in_codes.old tally.old }
    ensures { (N : Netlist)
        → MaskSource (tables_of source.entry.gates) source.entry.gates.count head.entry.header.wires
        (length source.entry.codes.now)
        (length source.entry.wanted.now) (head.entry.inputs.now ++ (2 ∷ [])) head.entry.outputs.now N
        → WellFormed (mask_netlist N source.entry.codes.now source.entry.wanted.now).netlist
        → FewestAnswers (delivery (room out.old in_codes.old out_codes.old tally.old)
        (given N source.entry.codes.now source.entry.wanted.now found)) out.old out.new in_codes.old
        in_codes.new out_codes.old out_codes.new tally.old tally.new result }
{
    let size = mask::deliver(out, out_codes, head, source, wires, marks)?;
    gates::entries::copy(source.codes, &mut in_codes[..source.codes.len()]);
    tally[0] = found.changes as u64;
    tally[1] = found.floor as u64;
    Ok(size)
}

// Questions 11, 13, 22 and 14, and the masked netlist.
fn deliver(
    out: &mut [u8],
    in_codes: &mut [u8],
    out_codes: &mut [u8],
    tally: &mut [u64],
    head: Head,
    codes: &[u8],
    wanted: &[u8],
    budget: u64,
    operands: &mut [u64],
    results: &[u64],
    wires: &mut [u32],
    marks: &mut [u8],
    ways: &mut [u8],
    best: &mut [u8],
    spans: &mut [u64],
) -> Answer
    requires { Room head.header (tables operands.old results.now) head.inputs.now head.outputs.now wires.old marks.old
        ways.old best.old spans.old }
    ensures { (N : Netlist)
        → Read head.entry.header (tables operands.old results.now) head.entry.header.gates head.entry.inputs.now
        head.entry.outputs.now N
        → FewestAnswers (fewest_outcome codes.now wanted.now budget
        (room out.old in_codes.old out_codes.old tally.old) N) out.old out.new
        in_codes.old in_codes.new out_codes.old out_codes.new tally.old tally.new result }
{
    let h = head.header;
    if !questions::free_codes(codes, h.input_bits as usize) {
        return Err(Refusal::Inputs);
    }
    if !questions::valid_wanted(wanted, h.output_bits as usize) {
        return Err(Refusal::Wanted);
    }
    if budget == 0 {
        return Err(Refusal::Budget);
    }
    if in_codes.len() < codes.len() {
        return Err(Refusal::Room);
    }
    if tally.len() < 2 {
        return Err(Refusal::Room);
    }
    let r = choose(
        codes, wanted, budget, h, operands, results, wires, marks, ways, best, spans,
    );
    let gates = Gates {
        operands,
        results,
        count: h.gates as usize,
    };
    let source = CodedGates::new(gates, &ways[..codes.len()], wanted);
    give(
        out, in_codes, out_codes, tally, head, r, source, wires, marks,
    )
}

// The answer, with tables that are still to be cleared.
fn answer(
    text: &[u8],
    codes: &[u8],
    wanted: &[u8],
    budget: u64,
    out: &mut [u8],
    in_codes: &mut [u8],
    out_codes: &mut [u8],
    tally: &mut [u64],
    operands: &mut [u64],
    results: &mut [u64],
    wires: &mut [u32],
    marks: &mut [u8],
    ways: &mut [u8],
    best: &mut [u8],
    spans: &mut [u64],
    sizes: Sizes,
) -> Answer
    ensures { FewestAnswers (call sizes text.now codes.now wanted.now budget
        (room out.old in_codes.old out_codes.old tally.old) operands.old results.old
        wires.old marks.old ways.old best.old spans.old) out.old
        out.new in_codes.old in_codes.new out_codes.old out_codes.new tally.old
        tally.new result }
{
    let l = sizes.source_limits();
    // As many places as any limits admit values.
    let mut inputs = [0u32; 17];
    let mut outputs = [0u32; 16];
    let h = read(
        text,
        &mut inputs,
        &mut outputs,
        operands,
        results,
        marks,
        &[wires.len(), ways.len(), best.len(), spans.len()],
        l,
    )?;
    let head = Head {
        header: h,
        inputs: &inputs[..h.input_values],
        outputs: &outputs[..h.output_values],
    };
    deliver(
        out, in_codes, out_codes, tally, head, codes, wanted, budget, operands, results, wires,
        marks, ways, best, spans,
    )
}

/// The masked netlist of `text` under the first choice with the fewest mask changes among as many as `budget` allows,
/// at the front of `out`; the codes of its input bits at the front of `in_codes`, those of its output bits at the front
/// of `out_codes`, and its changes and the floor at the front of `tally`. The tables, of any content, are zero on
/// return.
pub fn mask_fewest(
    text: &[u8],
    codes: &[u8],
    wanted: &[u8],
    budget: u64,
    out: &mut [u8],
    in_codes: &mut [u8],
    out_codes: &mut [u8],
    tally: &mut [u64],
    operands: &mut [u64],
    results: &mut [u64],
    wires: &mut [u32],
    marks: &mut [u8],
    ways: &mut [u8],
    best: &mut [u8],
    spans: &mut [u64],
    sizes: Sizes,
) -> Answer
    ensures { Promise sizes text.now codes.now wanted.now budget out.old
        out.new in_codes.old in_codes.new out_codes.old out_codes.new tally.old
        tally.new operands.old operands.new results.old results.new
        wires.old wires.new marks.old marks.new ways.old ways.new
        best.old best.new spans.old spans.new result }
{
    let r = answer(
        text, codes, wanted, budget, out, in_codes, out_codes, tally, operands, results, wires,
        marks, ways, best, spans, sizes,
    );
    operands.fill(0);
    results.fill(0);
    wires.fill(0);
    marks.fill(0);
    ways.fill(0);
    best.fill(0);
    spans.fill(0);
    r
}
