//! Questions 8 and 9 of a gate, with the word of its line that is refused.
ghost use Rattle.std.specs.Prelude.{◌≡◌};
ghost use Rattle.netlist.specs.Netlist.{result as result_of};
ghost use Rattle.reader.specs.Marks.{marked};
ghost use Rattle.places.specs.GateWords.{lacking, result_word as word_of_result, gate_refused};

use netlist::{Gate, Refusal};

/// The wire that a gate gives.
pub fn result_of(gate: Gate) -> u32
    ensures { result ≡ result_of gate }
{
    match gate {
        Gate::Xor(_, _, c) | Gate::And(_, _, c) => c,
        Gate::Inv(_, c) | Gate::Eqw(_, c) | Gate::Eq(_, c) => c,
    }
}

// Whether a wire is marked. Past the table's end none is.
fn is_marked(given: &[u8], wire: u32) -> bool
    ensures { result ≡ marked given.now wire }
{
    given.get(wire as usize) == Some(&1)
}

// The word of the first operand that question 8 refuses. A line's words are counted from 0; its first two are counts.
fn lacking(given: &[u8], gate: Gate) -> Option<usize>
    ensures { result ≡ lacking (marked given.now) gate }
{
    match gate {
        Gate::Xor(a, b, _) | Gate::And(a, b, _) => {
            if !is_marked(given, a) {
                return Some(2);
            }
            if !is_marked(given, b) {
                return Some(3);
            }
            None
        }
        Gate::Inv(a, _) | Gate::Eqw(a, _) => { if is_marked(given, a) { None } else { Some(2) } }
        Gate::Eq(v, _) => { if v < 2 { None } else { Some(2) } }
    }
}

// The word of a gate's result.
fn result_word(gate: Gate) -> usize
    ensures { result ≡ word_of_result gate }
{
    match gate {
        Gate::Xor(..) | Gate::And(..) => 4,
        Gate::Inv(..) | Gate::Eqw(..) | Gate::Eq(..) => 3,
    }
}

/// Questions 8 and 9 of a gate: the first that gets a no, with the word of the line that it is put to.
pub fn gate_refused(given: &[u8], inputs: u32, wires: u32, gate: Gate) -> Option<(Refusal, usize)>
    ensures { result ≡ gate_refused (marked given.now) inputs wires gate }
{
    if let Some(word) = lacking(given, gate) {
        return Some((Refusal::Operands, word));
    }
    let wire = result_of(gate);
    if inputs <= wire && wire < wires && !is_marked(given, wire) {
        None
    } else {
        Some((Refusal::Wire, result_word(gate)))
    }
}
