//! The masked gates of one source gate, written: what they are is said by `mask_rule`, and their lines follow each
//! other here.
ghost use Rattle.masking.specs.Mask.{change_gates, xor_gates, and_gates};
ghost use Rattle.writer.specs.WrittenGates.{WroteGates};
ghost use Rattle.mask.specs.Emitted.{WroteKind};

use gates::Kind;
use mask_rule::codes::{Masks, Next, code_after};
use mask_rule::{and_twin, changed, past, xor_twin};
use netlist::Twin;
use writer::gate_lines;
use writer::word_table::Words;

// The gate of the second operand's mask change, where the operands' codes are equal.
fn change(
    words: Words,
    out: &mut [u8],
    at: usize,
    masks: Masks,
    wire: u32,
    first: Twin,
    second: Twin,
) -> usize
    ensures { WroteGates out.old at (change_gates masks.first wire first second) out.new result }
{
    if first.code != second.code {
        return at;
    }
    let f = code_after(second.code);
    let m = masks.wire(f);
    gate_lines::xor(words, out, at, second.wire, m, wire)
}

// XOR: one XOR gate, with the code that neither operand has.
fn xor(
    words: Words,
    out: &mut [u8],
    at: usize,
    masks: Masks,
    start: Next,
    left: Twin,
    right: Twin,
) -> usize
    ensures { WroteGates out.old at (xor_gates masks.first start.wire left right) out.new result }
{
    let from = change(words, out, at, masks, start.wire, left, right);
    let second = changed(start.wire, left, right);
    let next = past(start, left, right);
    gate_lines::xor(words, out, from, left.wire, second.wire, next)
}

// AND: the seven steps, with the first operand's code.
fn and(
    words: Words,
    out: &mut [u8],
    at: usize,
    masks: Masks,
    start: Next,
    left: Twin,
    right: Twin,
) -> usize
    ensures { WroteGates out.old at (and_gates masks.first start.wire left right) out.new result }
{
    let from = change(words, out, at, masks, start.wire, left, right);
    let second = changed(start.wire, left, right);
    let next = past(start, left, right);
    let p = masks.wire(left.code);
    let q = masks.wire(second.code);
    let or = masks.first + 4;
    crate::and_lines::steps(words, out, from, left.wire, second.wire, p, q, or, next)
}

/// A source gate of a kind whose operands have the twins a and b, at the wires from `next`: the next place, and the
/// twin of its result.
pub fn emit(
    words: Words,
    out: &mut [u8],
    at: usize,
    masks: Masks,
    next: Next,
    kind: Kind,
    first: Twin,
    second: Twin,
) -> (usize, Twin)
    ensures { WroteKind out.old at masks.first next.wire kind first second out.new result }
{
    let same_code = Twin {
        wire: next.wire,
        code: first.code,
    };
    let constant = Twin {
        wire: next.wire,
        code: 1,
    };
    match kind {
        Kind::Xor => (
            xor(words, out, at, masks, next, first, second),
            xor_twin(next, first, second),
        ),
        Kind::And => (
            and(words, out, at, masks, next, first, second),
            and_twin(next, first, second),
        ),
        Kind::Inv => (
            gate_lines::inv(words, out, at, first.wire, next.wire),
            same_code,
        ),
        Kind::Eqw => (
            gate_lines::eqw(words, out, at, first.wire, next.wire),
            same_code,
        ),
        Kind::Eq(0) => (
            gate_lines::eqw(words, out, at, masks.first, next.wire),
            constant,
        ),
        Kind::Eq(_) => (
            gate_lines::inv(words, out, at, masks.first, next.wire),
            constant,
        ),
    }
}
