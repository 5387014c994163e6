//! The masked text and the output codes of a source that lies in the gate tables, written where both buffers can hold
//! them: in one pass where the text surely fits, and otherwise measured first.
ghost use Rattle.std.specs.Prelude.{◌≡◌, ◌<◌, leb, length};
ghost use Rattle.netlist.specs.Netlist.{Netlist};
ghost use Rattle.netlist.specs.Read.{WellFormed};
ghost use Rattle.netlist.specs.Write.{write_netlist};
ghost use Rattle.masking.specs.Mask.{mask_netlist};
ghost use Rattle.masking.specs.Calls.{masked_text, deliver_outcome};
ghost use Rattle.gates.specs.Gates.{tables_of};
ghost use Rattle.writer.specs.Wrote.{top};
ghost use Rattle.mask_rule.specs.Place.{Ready};
ghost use Rattle.mask.specs.Whole.{Source, WroteText, Filled, MaskAnswers};
ghost use Rattle.mask.specs.Job.{ReadyFor, masked, SourceOf, NumbersOf};

use gates::coded::CodedGates;
use netlist::{Answer, Refusal};
use write_netlist::header::Shape;
use writer::word_table::Words;

// What a source is masked by: its gates and codes, and what the masked text's header says.
#[derive(Clone, Copy)]
struct Job<'a> {
    source: CodedGates<'a>,
    shape: Shape<'a>,
}

// The masked text.
fn write<'a>(
    words: Words,
    out: &mut [u8],
    job: Job<'a>,
    twin_wires: &mut [u32],
    twin_codes: &mut [u8],
) -> usize
    requires ready { ReadyFor job twin_wires.old twin_codes.old }
    ensures { (N : Netlist) → SourceOf job.entry (length twin_wires.old) N → NumbersOf job.entry N
        → WroteText out.old (masked job.entry N) job.entry.source.wanted.now out.new twin_codes.new result }
{
    let at = write_netlist::header::header(out, 0, job.shape);
    let (end, _) = crate::pass::pass(words, out, at, job.source, twin_wires, twin_codes);
    end
}

// The masked text and the output codes, each into its buffer.
fn fill<'a>(
    words: Words,
    out: &mut [u8],
    out_codes: &mut [u8],
    job: Job<'a>,
    twin_wires: &mut [u32],
    twin_codes: &mut [u8],
) -> usize
    requires ready { ReadyFor job twin_wires.old twin_codes.old }
    ensures { (N : Netlist) → SourceOf job.entry (length twin_wires.old) N → NumbersOf job.entry N
        → Filled (masked job.entry N) out.old out.new out_codes.old out_codes.new result }
{
    let size = write(words, out, job, twin_wires, twin_codes);
    let from = twin_codes.len() - job.source.wanted.len();
    crate::output_gates::codes(&twin_codes[from..], job.source.wanted, out_codes);
    size
}

// Question 14 of the text: yes where lines of the longest kind fit, and otherwise as it is measured.
fn holds<'a>(
    words: Words,
    room: usize,
    job: Job<'a>,
    twin_wires: &mut [u32],
    twin_codes: &mut [u8],
) -> bool
    requires ready { ReadyFor job twin_wires.old twin_codes.old × (room < top) }
    ensures { (N : Netlist) → SourceOf job.entry (length twin_wires.old) N → NumbersOf job.entry N
        → WellFormed (masked job.entry N).netlist
        → result ≡ leb (length (write_netlist (masked job.entry N).netlist)) room }
{
    let mut none = [0u8; 1];
    let header = write_netlist::header::header(&mut none, 0, job.shape);
    if writer::room::ample(room, header, job.shape.gates, job.shape.wires) {
        return true;
    }
    let size = write(words, &mut none, job, twin_wires, twin_codes);
    size <= room
}

// Question 14, and the text and the codes.
fn answer<'a>(
    words: Words,
    out: &mut [u8],
    out_codes: &mut [u8],
    job: Job<'a>,
    twin_wires: &mut [u32],
    twin_codes: &mut [u8],
) -> Answer
    requires ready { ReadyFor job twin_wires.old twin_codes.old }
    ensures { (N : Netlist) → SourceOf job.entry (length twin_wires.old) N → NumbersOf job.entry N
        → WellFormed (masked job.entry N).netlist
        → MaskAnswers (deliver_outcome (length out.old) (length out_codes.old)
        (masked_text (masked job.entry N))) out.old out.new out_codes.old out_codes.new result }
{
    if out_codes.len() < job.source.wanted.len() {
        return Err(Refusal::Room);
    }
    if holds(words, out.len(), job, twin_wires, twin_codes) {
        Ok(fill(words, out, out_codes, job, twin_wires, twin_codes))
    } else {
        Err(Refusal::Room)
    }
}

/// Question 14, and the text and the codes where it gets a yes. The last of the masked netlist's input widths is 2.
pub fn deliver(
    out: &mut [u8],
    out_codes: &mut [u8],
    source: CodedGates,
    input_widths: &[u32],
    output_widths: &[u32],
    twin_wires: &mut [u32],
    twin_codes: &mut [u8],
) -> Answer
    requires { Ready (tables_of source.gates) source.gates.count source.codes.now source.wanted.now twin_wires.old
        twin_codes.old }
    ensures { (N : Netlist)
        → Source (tables_of source.entry.gates) source.entry.gates.count (length twin_wires.old)
        (length source.entry.codes.now)
        (length source.entry.wanted.now) input_widths.now output_widths.now N
        → WellFormed (mask_netlist N source.entry.codes.now source.entry.wanted.now).netlist
        → MaskAnswers (deliver_outcome (length out.old) (length out_codes.old)
        (masked_text (mask_netlist N source.entry.codes.now source.entry.wanted.now))) out.old out.new out_codes.old
        out_codes.new result }
{
    let wires = crate::count::count(source, twin_wires, twin_codes) as usize;
    let gate_count = wires - (source.codes.len() + 2);
    let shape = Shape {
        gates: gate_count,
        wires,
        ins: input_widths,
        outs: output_widths,
    };
    let j = Job { source, shape };
    if let Some(none) = Words::none_for(wires) {
        return answer(none, out, out_codes, j, twin_wires, twin_codes);
    }
    let mut table = [0u64; 2000];
    let words = Words::of(&mut table, wires);
    answer(words, out, out_codes, j, twin_wires, twin_codes)
}
