//! The gate lines of the masked AND's seven steps.
ghost use Rattle.std.specs.Prelude.{◌≤◌, ◌^◌, [], ◌∷◌};
ghost use Rattle.masking.specs.Mask.{rows, row_gates};
ghost use Rattle.writer.specs.WrittenGates.{WroteGates};
ghost use Rattle.mask.specs.Row.{row_of};

use mask_rule::and_steps::ROWS;
use writer::word_table::Words;

// A step's gate.
fn row(
    words: Words,
    out: &mut [u8],
    at: usize,
    is_and: bool,
    first: u32,
    second: u32,
    wire: u32,
) -> usize
    ensures { WroteGates out.old at (row_of is_and first second wire ∷ []) out.new result }
{
    if is_and {
        writer::gate_lines::and(words, out, at, first, second, wire)
    } else {
        writer::gate_lines::xor(words, out, at, first, second, wire)
    }
}

/// The steps' gates at the wires from c, with the operands a and b, their mask wires p and q, and the wire o of the OR
/// of the masks.
pub fn steps(
    words: Words,
    out: &mut [u8],
    at: usize,
    first: u32,
    second: u32,
    first_mask: u32,
    second_mask: u32,
    either_mask: u32,
    result_wire: u32,
) -> usize
    requires c_bound { result_wire ≤ 2 ^ 31 }
    ensures { WroteGates out.old at (row_gates rows (first ∷ second ∷ first_mask ∷ second_mask ∷ either_mask ∷ [])
        result_wire) out.new result }
{
    let rows = ROWS;
    let mut places = [
        first,
        second,
        first_mask,
        second_mask,
        either_mask,
        0,
        0,
        0,
        0,
        0,
        0,
        0,
    ];
    let mut next = at;
    for (i, step) in rows.iter().enumerate() {
        let wire = result_wire + i as u32;
        let x = places[step[1] as usize];
        let y = places[step[2] as usize];
        next = row(words, out, next, step[0] == 1, x, y, wire);
        places[5 + i] = wire;
    }
    next
}
