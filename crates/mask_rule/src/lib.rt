//! The masking rule of one source gate, by value: its mask change, its masked gates one by one, how many they are, and
//! the twin of its result. Mask writes by it, Mask and Twins count by it, and a session stores what it gives.
#![tactic(auto)]

pub mod and_steps;
pub mod codes;
pub mod input_twins;
pub mod place;
pub mod twin_tables;

ghost use Rattle.std.specs.Prelude.{◌≡◌, map, ◌+◌, ◌<◌, length, get_or};
ghost use Rattle.netlist.specs.declared.Gate.TheVariants.{Xor};
ghost use Rattle.netlist.specs.Eval.{bit};
ghost use Rattle.masking.specs.Mask.{after, mask_wire, changes, changed as changed_twin, past as past_wire, xor_gates};
ghost use Rattle.masking.specs.Mask.{xor_twin, and_gates, and_twin};
ghost use Rattle.gates.specs.Records.{blank, record_of};
ghost use Rattle.mask_rule.specs.Rule.{steps_of, twin_of, At, Many};

use crate::codes::{Masks, Next, code_after, third_code};
use gates::Kind;
use gates::records::GateRecord;
use netlist::{Gate, Twin};

/// The second operand after its mask change, if there is one. It holds for this gate alone: the caller's twin of the
/// operand stays as it is.
pub fn changed(wire: u32, first: Twin, second: Twin) -> Twin
    ensures { result ≡ changed_twin wire first second }
{
    if first.code != second.code {
        return second;
    }
    let f = code_after(second.code);
    Twin {
        wire,
        code: third_code(second.code, f),
    }
}

/// The next wire after it.
pub fn past(next: Next, first: Twin, second: Twin) -> u32
    ensures { result ≡ past_wire next.wire first second }
{
    if first.code == second.code {
        next.wire + 1
    } else {
        next.wire
    }
}

/// The twin of an XOR's result.
pub fn xor_twin(next: Next, left: Twin, right: Twin) -> Twin
    ensures { result ≡ xor_twin next.wire left right }
{
    let second = changed(next.wire, left, right);
    Twin {
        wire: past(next, left, right),
        code: third_code(left.code, second.code),
    }
}

/// The twin of an AND's result.
pub fn and_twin(next: Next, first: Twin, second: Twin) -> Twin
    ensures { result ≡ and_twin next.wire first second }
{
    Twin {
        wire: past(next, first, second) + 6,
        code: first.code,
    }
}

/// The twin of a source gate's result, by the gate's kind; its operands have the twins a and b, and its masked gates
/// start at wire c.
pub fn twin(next: Next, kind: Kind, first: Twin, second: Twin) -> Twin
    ensures { result ≡ twin_of next.wire kind first second }
{
    match kind {
        Kind::Xor => xor_twin(next, first, second),
        Kind::And => and_twin(next, first, second),
        Kind::Eq(_) => Twin {
            wire: next.wire,
            code: 1,
        },
        _ => Twin {
            wire: next.wire,
            code: first.code,
        },
    }
}

// How many mask changes two operands get.
fn extra(first: Twin, second: Twin) -> usize
    ensures { result ≡ bit (changes first second) }
{
    usize::from(first.code == second.code)
}

/// How many masked gates a source gate of a kind gets.
pub fn count(kind: Kind, first: Twin, second: Twin) -> usize
    ensures { Many kind first second result }
{
    let more = extra(first, second);
    match kind {
        Kind::Xor => more + 1,
        Kind::And => more + 7,
        _ => 1,
    }
}

// The gate of an operand's mask change, at wire c.
fn change(masks: Masks, wire: u32, second: Twin) -> GateRecord
    ensures { result ≡ record_of (Xor second.wire (mask_wire masks.first (after second.code)) wire) }
{
    let f = code_after(second.code);
    GateRecord::from(Gate::Xor(second.wire, masks.wire(f), wire))
}

// Gate k of XOR's.
fn xor(masks: Masks, next: Next, left: Twin, right: Twin, index: usize) -> GateRecord
    ensures { At (map record_of (xor_gates masks.first next.wire left right)) index result }
{
    let from = extra(left, right);
    if index < from {
        return change(masks, next.wire, right);
    }
    let second = changed(next.wire, left, right);
    GateRecord::from(Gate::Xor(left.wire, second.wire, past(next, left, right)))
}

// Gate k of AND's: the steps follow the mask change.
fn and(masks: Masks, start: Next, left: Twin, right: Twin, index: usize) -> GateRecord
    requires { index < bit (changes left right) + 7 }
    ensures { At (map record_of (and_gates masks.first start.wire left right)) index result }
{
    let from = extra(left, right);
    if index < from {
        return change(masks, start.wire, right);
    }
    let second = changed(start.wire, left, right);
    let next = past(start, left, right);
    let p = masks.wire(left.code);
    let q = masks.wire(second.code);
    let or = masks.first + 4;
    crate::and_steps::step(left.wire, second.wire, p, q, or, next, index - from)
}

/// Masked gate k of a source gate.
pub fn gate(
    masks: Masks,
    next: Next,
    kind: Kind,
    first: Twin,
    second: Twin,
    index: usize,
) -> GateRecord
    requires { index < length (steps_of masks.first next.wire kind first second) }
    ensures { result ≡ get_or (map record_of (steps_of masks.first next.wire kind first second)) index blank }
{
    match kind {
        Kind::Xor => xor(masks, next, first, second, index),
        Kind::And => and(masks, next, first, second, index),
        Kind::Inv => GateRecord::from(Gate::Inv(first.wire, next.wire)),
        Kind::Eqw => GateRecord::from(Gate::Eqw(first.wire, next.wire)),
        Kind::Eq(0) => GateRecord::from(Gate::Eqw(masks.first, next.wire)),
        Kind::Eq(_) => GateRecord::from(Gate::Inv(masks.first, next.wire)),
    }
}
