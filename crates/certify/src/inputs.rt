//! The records and the marks of the input wires.
ghost use Rattle.std.specs.Prelude.{◌≡◌, List, ℕ, ◌+◌, ◌*◌, ◌<◌, ◌≤◌, length, get_or};
ghost use Rattle.netlist.specs.Netlist.{Netlist};
ghost use Rattle.certify.specs.Known.{Known};
ghost use Rattle.certify.specs.Store.{KnownIf};
ghost use Rattle.certify.specs.Pass.{Holding, Masked, InputStep};
ghost use Rattle.certify.specs.Step as Step;
ghost use Rattle.certify.specs.Step.{state, given, given_if, input_of, inputs_of};

use crate::gate::Shown;
use crate::{gate, store};
use certify_records::{MOST_WIRES, NO_ATOM, Record};
use leak_search::load;

// Bit 2 of each place: the first atom.
const FIRST: u64 = 0xf0f0_f0f0_f0f0_f0f0;

// The record of input wire i, over its own bit.
fn input_record(index: usize, code: u8) -> Option<Record>
    ensures says { (N : Netlist) (codes : List ℕ) → Masked N codes → index < length codes → get_or codes index 0 ≡ code
        → KnownIf N codes index result }
    ensures is { result ≡ Step.input_record index code }
{
    if MOST_WIRES <= index {
        return None;
    }
    Some(Record::over(load::mask(code) ^ FIRST, 8 * index as u32))
}

// The record of a mask wire: code 1 is m0, 2 is m1.
fn mask_record(code: u8) -> Record
    ensures says { (N : Netlist) (codes : List ℕ) → Masked N codes → (code ≡ 1 → Known N codes (length codes) result)
        × (code ≡ 2 → Known N codes (length codes + 1) result) }
    ensures is { result ≡ Step.mask_record code }
{
    Record::over(load::mask(code), NO_ATOM)
}

// A wire gets its leaf, and may be clean.
fn give(records: &mut [u64], marks: &mut [u8], wire: usize, known: Record)
    requires { (15 * wire + 15 ≤ length records.old) × (wire < length marks.old) }
    ensures says { (N : Netlist) (codes : List ℕ) → Known N codes wire known → Holding N codes records.old marks.old
        → Holding N codes records.new marks.new }
    ensures is { (h : List ℕ) → state records.new marks.new h ≡ given (state records.old marks.old h) wire known }
{
    store::put(records, 5 * wire, known);
    gate::show_clean(marks, wire, known);
}

// The leaf of input wire i.
fn lay(records: &mut [u64], marks: &mut [u8], index: usize, code: u8)
    requires { (15 * index + 15 ≤ length records.old) × (index < length marks.old) }
    ensures says { InputStep index code records.old marks.old records.new marks.new }
    ensures is { (h : List ℕ) → state records.new marks.new h ≡ given_if (state records.old marks.old h) index
        (Step.input_record index code) }
{
    if let Some(r) = input_record(index, code) {
        give(records, marks, index, r);
    }
}

// Input wire `index`; a public one is marked so last.
fn input(records: &mut [u64], marks: &mut [u8], index: usize, code: u8)
    requires { (15 * index + 15 ≤ length records.old) × (index < length marks.old) }
    ensures says { InputStep index code records.old marks.old records.new marks.new }
    ensures is { (h : List ℕ) → state records.new marks.new h ≡ input_of (state records.old marks.old h) index code }
{
    lay(records, marks, index, code);
    if code == 0 {
        gate::mark(marks, index, Shown::Public);
    }
}

/// All input wires: those of the codes, then the mask pair.
pub fn inputs(codes: &[u8], records: &mut [u64], marks: &mut [u8])
    requires { (15 * length codes.now + 30 ≤ length records.old) × (length codes.now + 2 ≤ length marks.old) }
    ensures says { (N : Netlist) → Masked N codes.now → Holding N codes.now records.old marks.old
        → Holding N codes.now records.new marks.new }
    ensures is { (h : List ℕ) → state records.new marks.new h ≡ inputs_of codes.now (state records.old marks.old h) }
{
    for (i, code) in codes.iter().enumerate() {
        input(records, marks, i, *code);
    }
    let n = codes.len();
    give(records, marks, n, mask_record(1));
    give(records, marks, n + 1, mask_record(2));
}
