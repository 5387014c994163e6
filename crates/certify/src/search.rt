//! Rounds of chosen settings.
ghost use Rattle.std.specs.Prelude.{◌≡◌, Some, List, ℕ, ◌+◌, ◌<◌, ◌≤◌, length};
ghost use Rattle.netlist.specs.Netlist.{Netlist};
ghost use Rattle.gates.specs.Gates.{WiredGates, HoldsGates};
ghost use Rattle.certify.specs.Pass.{Masked};
ghost use Rattle.leak_search.specs.declared.difference.Leak.{Leak};
ghost use Rattle.certify.specs.Round.{Ran};
ghost use Rattle.certify.specs.Search.{drawn, round_words, Looked, Searches};
ghost use Rattle.certify.specs.Witness.{Witnessed};

use crate::load;
use gates::Gates;
use leak_search::difference::Leak;
use leak_search::{block, difference};

// The words of all wires in one round. Returns the generator's last number.
fn run(gates: Gates, codes: &[u8], seed: u64, words: &mut [u64]) -> u64
    requires { WiredGates gates (length words.old) × (length codes.now + 2 ≤ length words.old) }
    ensures says { (n o : ℕ) (N : Netlist) → HoldsGates gates.entry (length words.old) n o N
        → Masked N codes.now → Ran N codes.now words.new × (words.new ≡ round_words N codes.now seed) }
    ensures noise { result ≡ drawn (length codes.now) seed }
{
    let noise = load::inputs(codes, seed, words);
    evaluate::wires(gates, codes.len() + 2, words);
    noise
}

// The lowest wire with another count than its base in a round that was run.
fn look(words: &[u64], base: &mut [u64]) -> Option<Leak>
    requires { length base.old ≡ length words.now }
    ensures inside { (p : Leak ℕ) → result ≡ Some p → p.setting < 16 }
    ensures witness { (N : Netlist) (codes : List ℕ) → Ran N codes words.now → Witnessed N codes words.now result }
    ensures is { Looked words.now result }
{
    block::first(words, base);
    difference::scan(words, base, words.len())
}

// How many rounds are run. Any number will do: with more of them more leaks are found, and a search without one takes
// longer.
const ROUNDS: usize = 64;

// The number from which the generator starts.
const SEED: u64 = 0x9e37_79b9_7f4a_7c15;

/// A wire and a setting with another count than its base, among the chosen settings: `words` then holds the round's
/// words; or no wire.
pub fn search(gates: Gates, codes: &[u8], words: &mut [u64], base: &mut [u64]) -> Option<Leak>
    requires { WiredGates gates (length words.old) × (length codes.now + 2 ≤ length words.old)
        × (length base.old ≡ length words.old) }
    ensures inside { (p : Leak ℕ) → result ≡ Some p → p.setting < 16 }
    ensures witness { (n o : ℕ) (N : Netlist) → HoldsGates gates.entry (length words.old) n o N
        → Masked N codes.now → Witnessed N codes.now words.new result }
    ensures is { (n o : ℕ) (N : Netlist) → HoldsGates gates.entry (length words.old) n o N
        → Masked N codes.now → Searches N codes.now result words.new }
{
    let mut seed = SEED;
    for _ in 0..ROUNDS {
        seed = run(gates, codes, seed, words);
        if let Some(leak) = look(words, base) {
            return Some(leak);
        }
    }
    None
}
