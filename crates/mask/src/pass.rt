//! One pass over a source netlist: its masked gates, at a place of a buffer.
ghost use Rattle.std.specs.Prelude.{◌≡◌, length};
ghost use Rattle.netlist.specs.Netlist.{Netlist};
ghost use Rattle.masking.specs.Mask.{mask_gates, mask_netlist};
ghost use Rattle.gates.specs.Gates.{HoldsGates, tables_of};
ghost use Rattle.writer.specs.WrittenGates.{WroteGates};
ghost use Rattle.mask_rule.specs.Place.{Ready};
ghost use Rattle.mask.specs.Pass.{WrotePass};

use gates::coded::CodedGates;
use mask_rule::codes::Masks;
use writer::word_table::Words;

// The three gates that always follow the inputs: the sum, the product and the OR of the masks.
fn mask_gates(words: Words, out: &mut [u8], at: usize, masks: Masks) -> usize
    ensures { WroteGates out.old at (mask_gates masks.first) out.new result }
{
    let n = masks.first;
    let second = writer::gate_lines::xor(words, out, at, n, n + 1, n + 2);
    let third = writer::gate_lines::and(words, out, second, n, n + 1, n + 3);
    writer::gate_lines::xor(words, out, third, n + 2, n + 3, n + 4)
}

/// The gates of the masked netlist: the next place, and the next wire. The tables `twin_wires` and `twin_codes` have an
/// entry for each source wire, and may hold anything.
pub fn pass(
    words: Words,
    out: &mut [u8],
    at: usize,
    source: CodedGates,
    twin_wires: &mut [u32],
    twin_codes: &mut [u8],
) -> (usize, u32)
    requires ready { Ready (tables_of source.gates) source.gates.count source.codes.now source.wanted.now twin_wires.old
        twin_codes.old }
    ensures { (N : Netlist) → HoldsGates source.entry.gates (length twin_wires.old)
        (length source.entry.codes.now) (length source.entry.wanted.now) N
        → WrotePass out.old at (mask_netlist N source.entry.codes.now source.entry.wanted.now)
        (length source.entry.codes.now)
        source.entry.wanted.now out.new result twin_codes.new }
{
    let n = source.codes.len() as u32;
    // The gates of the public bits stand after the inputs, the mask pair and the three gates of the masks.
    let first = mask_rule::input_twins::start(n + 5, source.codes, twin_wires, twin_codes);
    let masks = Masks { first: n };
    let second = mask_gates(words, out, at, masks);
    let third = crate::publics::publics(words, out, second, n, n + 5, source.codes);
    let (place, next) = crate::source_gates::write_all(
        words,
        out,
        third,
        masks,
        first,
        source.gates,
        twin_wires,
        twin_codes,
    );
    let from = twin_wires.len() - source.wanted.len();
    let end = crate::output_gates::outs(
        words,
        out,
        place,
        masks,
        next,
        &twin_wires[from..],
        &twin_codes[from..],
        source.wanted,
    );
    (end, next + source.wanted.len() as u32)
}
