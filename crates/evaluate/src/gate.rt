//! One gate on words: lane j of each word belongs to setting j.
ghost use Rattle.std.specs.Prelude.{◌≡◌, ℕ, ◌<◌, [], ◌∷◌, cond, eqb, length};
ghost use Rattle.netlist.specs.Eval.{run_gates};
ghost use Rattle.netlist.specs.Table.{made_of};
ghost use Rattle.evaluate.specs.Lane.{lane, lanes};
ghost use Rattle.gates.specs.Parts.{gate_by, Within};

use gates::Parts;

const ALL: u64 = 0xffff_ffff_ffff_ffff;

/// Bit i of a number, in every lane.
pub fn spread(bits: u64, index: usize) -> u64
    requires { index < 64 }
    ensures { (j : ℕ) → j < 64 → lane j result ≡ lane index bits }
{
    ((bits >> index) & 1) * ALL
}

// Every gate is (left AND factor) XOR term. The factor is the right operand for AND, the term that for XOR; else each
// is the same in all lanes.
const FACTORS: u64 = 0b0001_1010;

const TERMS: u64 = 0b1100_1001;

// The right operand for one kind, else bit `kind` of a number in all lanes.
fn chosen(right: usize, bits: u64, kind: usize, operand: u64) -> u64
    requires { kind < 8 }
    ensures { (j : ℕ) → j < 64 → lane j result ≡ cond (eqb kind right) (lane j operand) (lane kind bits) }
{
    if kind == right {
        operand
    } else {
        spread(bits, kind)
    }
}

/// What a kind makes of its operands' words. Kinds change from gate to gate, so there is no jump on
/// them: both ways of each choice are a few instructions.
pub fn made(kind: usize, left: u64, right: u64) -> u64
    requires { kind < 8 }
    ensures { (j : ℕ) → j < 64 → lane j result ≡ made_of kind (lane j left) (lane j right) }
{
    (left & chosen(2, FACTORS, kind, right)) ^ chosen(1, TERMS, kind, right)
}

/// A gate, on the wires' words.
pub fn step(words: &mut [u64], gate: Parts)
    requires { Within (length words.old) gate }
    ensures { (j : ℕ) → j < 64 → lanes j words.new ≡ run_gates (lanes j words.old) (gate_by gate ∷ []) }
{
    words[gate.result] = made(gate.kind, words[gate.left], words[gate.right]);
}
