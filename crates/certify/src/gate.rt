//! The records and the mark of a gate's result.
ghost use Rattle.std.specs.Prelude.{◌≡◌, List, ℕ, ◌+◌, ◌-◌, ◌*◌, ◌/◌, ◌<◌, ◌≤◌, length, set};
ghost use Rattle.netlist.specs.Netlist.{Netlist};
ghost use Rattle.gates.specs.Parts.{gate_by, Within};
ghost use Rattle.certify.specs.Known.{Known};
ghost use Rattle.certify.specs.Store.{Recorded, Marked, KnownIf};
ghost use Rattle.certify.specs.Kept.{record_if};
ghost use Rattle.certify.specs.Pass.{byte_of, Shows, Holding, GateStep, PairStep};
ghost use Rattle.certify.specs.Step.{state, shown_clean, shown_public, added, paired, row_more, crossed, all_pairs};
ghost use Rattle.certify.specs.Step.{leafed, led, first_of, leaf_put, settled, is_leaf, leaves_of, step_of, parts_for};

use crate::{hints, keeping, marks, store};
use certify_records::{Record, leaf};
use gates::Parts;

/// What a wire is marked as: clean, or public and so clean.
#[derive(Clone, Copy)]
pub enum Shown {
    Clean = 1,
    Public = 3,
}

impl Shown {
    // Its byte.
    fn byte(self) -> u8
        ensures { result ≡ byte_of self }
    {
        self as u8
    }
}

/// Wire w is marked.
pub fn mark(marks: &mut [u8], wire: usize, shown: Shown)
    requires { wire < length marks.old }
    ensures says { (N : Netlist) (codes : List ℕ) → Shows N codes wire shown → Marked N codes marks.old
        → Marked N codes marks.new }
    ensures is { marks.new ≡ set marks.old wire (byte_of shown) }
{
    marks[wire] = shown.byte();
}

/// Wire w is clean, if a record shows it.
pub fn show_clean(marks: &mut [u8], wire: usize, known: Record)
    requires { wire < length marks.old }
    ensures says { (N : Netlist) (codes : List ℕ) → Known N codes wire known → Marked N codes marks.old
        → Marked N codes marks.new }
    ensures is { marks.new ≡ shown_clean marks.old wire known }
{
    if marks::shows_clean(marks, known) {
        mark(marks, wire, Shown::Clean);
    }
}

// Wire w is public, if a record shows it.
fn show_public(marks: &mut [u8], wire: usize, known: Record)
    requires { wire < length marks.old }
    ensures says { (N : Netlist) (codes : List ℕ) → Known N codes wire known → Marked N codes marks.old
        → Marked N codes marks.new }
    ensures is { marks.new ≡ shown_public marks.old wire known }
{
    if marks::shows_public(marks, known) {
        mark(marks, wire, Shown::Public);
    }
}

// A record of wire w is kept, and may show that it is clean.
fn add(records: &mut [u64], marks: &mut [u8], wire: usize, known: Record)
    requires { (15 * wire + 15 ≤ length records.old) × (wire < length marks.old) }
    ensures says { (N : Netlist) (codes : List ℕ) → Known N codes wire known → Holding N codes records.old marks.old
        → Holding N codes records.new marks.new }
    ensures is { (h : List ℕ) → state records.new marks.new h ≡ added (state records.old marks.old h) wire known }
{
    keeping::keep(records, wire, known);
    if marks[wire] & 1 == 0 {
        show_clean(marks, wire, known);
    }
}

// What a record of the left operand gives with the j-th of the right one: it is kept, and may show that the result is
// clean.
fn pair(records: &mut [u64], marks: &mut [u8], gate: Parts, first: Record, index: usize)
    requires { Within (length records.old / 15) gate × (index < 5) × (gate.result < length marks.old) }
    ensures says { PairStep gate first records.old marks.old records.new marks.new }
    ensures is { (h : List ℕ) → state records.new marks.new h ≡ paired (state records.old marks.old h) gate first index }
{
    let Some(y) = store::get(records, 5 * gate.right + index) else {
        return;
    };
    if let Some(r) = certify_records::combine(gate.kind, first, y) {
        add(records, marks, gate.result, r);
    }
}

// The right operand's records from the j-th on, with one of the left. By number, here and below: they lie in the table
// that is written.
fn row(records: &mut [u64], marks: &mut [u8], gate: Parts, first: Record, from: usize)
    requires { Within (length records.old / 15) gate × (gate.result < length marks.old) }
    ensures says { PairStep gate first records.old marks.old records.new marks.new }
    ensures is { (h : List ℕ) → state records.new marks.new h ≡ row_more (5 - from) from gate first
        (state records.old marks.old h) }
{
    for j in from..5 {
        pair(records, marks, gate, first, j);
    }
}

// The i-th record of the left operand, with those of the right one from the j-th on; of a wire that is both operands,
// with itself only.
fn pairs_of(records: &mut [u64], marks: &mut [u8], gate: Parts, index: usize, from: usize)
    requires { Within (length records.old / 15) gate × (index < 5) × (gate.result < length marks.old) }
    ensures says { GateStep gate records.old marks.old records.new marks.new }
    ensures is { (h : List ℕ) → state records.new marks.new h ≡ crossed (state records.old marks.old h) gate index from }
{
    let Some(x) = store::get(records, 5 * gate.left + index) else {
        return;
    };
    if gate.left != gate.right {
        row(records, marks, gate, x, from);
    } else if from <= index {
        pair(records, marks, gate, x, index);
    }
}

// All pairs of the operands' records but that of their first ones.
fn pairs(records: &mut [u64], marks: &mut [u8], gate: Parts)
    requires { Within (length records.old / 15) gate × (gate.result < length marks.old) }
    ensures says { GateStep gate records.old marks.old records.new marks.new }
    ensures is { (h : List ℕ) → state records.new marks.new h ≡ all_pairs (state records.old marks.old h) gate }
{
    pairs_of(records, marks, gate, 0, 1);
    for i in 1..5 {
        pairs_of(records, marks, gate, i, 0);
    }
}

// A record of at most one atom that the k-th record of wire w gives.
fn leaf_of(
    records: &[u64],
    hints: &mut [u64],
    wire: usize,
    index: usize,
    known: Record,
) -> Option<Record>
    requires { (15 * wire + 15 ≤ length records.now) × (index < 5) }
    ensures says { (N : Netlist) (codes : List ℕ) → Recorded N codes records.now → Known N codes wire known
        → KnownIf N codes wire result }
    ensures is { (result, hints.new) ≡ leafed records.now hints.old wire index known }
{
    if keeping::atoms(known) <= 1 {
        return Some(known);
    }
    let s = leaf::leaf(known, wire)?;
    Some(hints::hinted(records, hints, wire, index, known, s))
}

// The first record of wire w, from what its operands' first records give: that, or the leaf that it gives, and then
// both are kept.
fn lead(records: &mut [u64], marks: &mut [u8], hints: &mut [u64], wire: usize, known: Record)
    requires { (15 * wire + 15 ≤ length records.old) × (wire < length marks.old) }
    ensures says { (N : Netlist) (codes : List ℕ) → Known N codes wire known → Holding N codes records.old marks.old
        → Holding N codes records.new marks.new }
    ensures is { state records.new marks.new hints.new ≡ led (state records.old marks.old hints.old) wire known }
{
    show_clean(marks, wire, known);
    let Some(s) = leaf_of(records, hints, wire, 1, known) else {
        store::put(records, 5 * wire, known);
        return;
    };
    store::put(records, 5 * wire, s);
    keeping::keep(records, wire, known);
    show_public(marks, wire, known);
}

// What the operands' first records give. All that the masking steps need of a wire is its first record, made of first
// records alone.
fn first(records: &mut [u64], marks: &mut [u8], hints: &mut [u64], gate: Parts)
    requires { Within (length records.old / 15) gate × (gate.result < length marks.old) }
    ensures says { GateStep gate records.old marks.old records.new marks.new }
    ensures is { state records.new marks.new hints.new ≡ first_of (state records.old marks.old hints.old) gate }
{
    let Some(x) = store::get(records, 5 * gate.left) else {
        return;
    };
    let Some(y) = store::get(records, 5 * gate.right) else {
        return;
    };
    if let Some(r) = certify_records::combine(gate.kind, x, y) {
        lead(records, marks, hints, gate.result, r);
    }
}

// A leaf that a further record of wire w gives: it becomes the first record where none stands, otherwise the last.
fn put_leaf(records: &mut [u64], wire: usize, leaf: Record)
    requires { 15 * wire + 15 ≤ length records.old }
    ensures says { (N : Netlist) (codes : List ℕ) → Recorded N codes records.old → Known N codes wire leaf
        → Recorded N codes records.new }
    ensures is { records.new ≡ leaf_put records.old wire leaf (record_if records.old (5 * wire)) }
{
    match store::get(records, 5 * wire) {
        Some(_) => store::put(records, 5 * wire + 4, leaf),
        None => store::put(records, 5 * wire, leaf),
    }
}

// A leaf from the k-th kept record of wire w, if it gives one; the wire may be public. Returns whether no further
// record is tried.
fn settle(
    records: &mut [u64],
    marks: &mut [u8],
    hints: &mut [u64],
    wire: usize,
    index: usize,
) -> bool
    requires { (15 * wire + 15 ≤ length records.old) × (wire < length marks.old) × (index < 5) }
    ensures says { (N : Netlist) (codes : List ℕ) → Holding N codes records.old marks.old
        → Holding N codes records.new marks.new }
    ensures is { (state records.new marks.new hints.new, result) ≡ settled (state records.old marks.old hints.old) wire
        index }
{
    let Some(r) = store::get(records, 5 * wire + index) else {
        return true;
    };
    let Some(s) = leaf_of(records, hints, wire, index, r) else {
        return false;
    };
    put_leaf(records, wire, s);
    show_public(marks, wire, r);
    true
}

// Whether the first record of wire w is a leaf.
fn has_leaf(records: &[u64], wire: usize) -> bool
    requires { 15 * wire + 15 ≤ length records.now }
    ensures { result ≡ is_leaf (record_if records.now (5 * wire)) }
{
    match store::get(records, 5 * wire) {
        Some(r) => keeping::atoms(r) <= 1,
        None => false,
    }
}

// A leaf of wire w from the first of its further records that gives one, where its first record is none.
fn leaves(records: &mut [u64], marks: &mut [u8], hints: &mut [u64], wire: usize)
    requires { (15 * wire + 15 ≤ length records.old) × (wire < length marks.old) }
    ensures says { (N : Netlist) (codes : List ℕ) → Holding N codes records.old marks.old
        → Holding N codes records.new marks.new }
    ensures is { state records.new marks.new hints.new ≡ leaves_of (state records.old marks.old hints.old) wire }
{
    if has_leaf(records, wire) {
        return;
    }
    for k in 1..5 {
        if settle(records, marks, hints, wire, k) {
            return;
        }
    }
}

/// A gate's parts, with one operand for both, and wire 0 for those of a constant: so what is done depends on the gate
/// alone.
pub fn plain(gate: Parts) -> Parts
    requires { gate.kind < 8 }
    ensures { result ≡ parts_for (gate_by gate) }
{
    match gate.kind {
        1 | 2 => gate,
        3 | 4 => Parts {
            right: gate.left,
            ..gate
        },
        5 => Parts {
            left: 0,
            right: 0,
            ..gate
        },
        _ => Parts {
            left: 0,
            right: 0,
            kind: 6,
            ..gate
        },
    }
}

/// One gate.
pub fn step(records: &mut [u64], marks: &mut [u8], hints: &mut [u64], gate: Parts)
    requires { Within (length records.old / 15) gate × (gate.result < length marks.old) }
    ensures says { GateStep gate records.old marks.old records.new marks.new }
    ensures is { state records.new marks.new hints.new ≡ step_of (state records.old marks.old hints.old) gate }
{
    first(records, marks, hints, gate);
    pairs(records, marks, gate);
    leaves(records, marks, hints, gate.result);
}
