//! The inputs that reach each wire, line by line.
ghost use Rattle.std.specs.Prelude.{◌≡◌, true, false, ℕ, ◌+◌, ◌≤◌, ◌<◌, length};
ghost use Rattle.netlist.specs.Netlist.{Netlist};
ghost use Rattle.netlist.specs.Read.{WellFormed};
ghost use Rattle.gates.specs.Gates.{WiredGates, HoldsGates};
ghost use Rattle.gates.specs.Parts.{gate_by, Within};
ghost use Rattle.check_wide.specs.Sets.{merge, gate_set, members_end};
ghost use Rattle.check_wide.specs.Packed.{sets, set_at, Sized};
ghost use Rattle.check_wide.specs.WireSets.{sets_of};
ghost use Rattle.check_wide.specs.Reached.{OneOf, Lined, Reached};

use crate::wire_sets::WireSets;
use crate::{members, unite};
use gates::{Gates, Kind, Parts};

// A wire whose set is that of two wires together, where the other has none or both have the same.
fn one_of(sets: WireSets, first: usize, second: usize) -> Option<usize>
    requires { (first < length sets.set0.now) × (second < length sets.set0.now) }
    ensures { OneOf (sets_of sets.entry) (length sets.entry.set0.now) first second result }
{
    if members::empty(sets.set0, second)
        || members::same(sets.set0, sets.set1, sets.set2, sets.set3, first, second)
    {
        Some(first)
    } else if members::empty(sets.set0, first) {
        Some(second)
    } else {
        None
    }
}

// Wire c is reached by what reaches wire a or wire b. Says whether those are at most twelve.
fn unite_sets(
    set0: &mut [u64],
    set1: &mut [u64],
    set2: &mut [u64],
    set3: &mut [u64],
    first: usize,
    second: usize,
    wire: usize,
) -> bool
    requires { Sized (sets set0.old set1.old set2.old set3.old) (length set0.old)
        × (first < length set0.old) × (second < length set0.old) × (wire < length set0.old) }
    ensures { let S = sets set0.old set1.old set2.old set3.old in
        Lined S (sets set0.new set1.new set2.new set3.new) wire (merge (set_at S first) (set_at S second)) result }
{
    let sets = WireSets {
        set0,
        set1,
        set2,
        set3,
    };
    let x = sets.at(first);
    let y = sets.at(second);
    match unite::both(x, y) {
        Some(u) => {
            members::put(set0, set1, set2, set3, wire, u);
            true
        }
        None => false,
    }
}

// Puts the union of the sets of wires a and b for wire c, unless it has more than twelve members; a set that is that of
// both is copied.
fn join(
    set0: &mut [u64],
    set1: &mut [u64],
    set2: &mut [u64],
    set3: &mut [u64],
    first: usize,
    second: usize,
    wire: usize,
) -> bool
    requires { Sized (sets set0.old set1.old set2.old set3.old) (length set0.old)
        × (first < length set0.old) × (second < length set0.old) × (wire < length set0.old) }
    ensures { let S = sets set0.old set1.old set2.old set3.old in
        Lined S (sets set0.new set1.new set2.new set3.new) wire (merge (set_at S first) (set_at S second)) result }
{
    let sets = WireSets {
        set0,
        set1,
        set2,
        set3,
    };
    match one_of(sets, first, second) {
        Some(w) => {
            members::copy(set0, set1, set2, set3, w, wire);
            true
        }
        None => unite_sets(set0, set1, set2, set3, first, second, wire),
    }
}

// A gate's result is reached by what reaches its operands, and that of an EQ by none. Says whether those are at most
// twelve.
fn line(set0: &mut [u64], set1: &mut [u64], set2: &mut [u64], set3: &mut [u64], gate: Parts) -> bool
    requires { Sized (sets set0.old set1.old set2.old set3.old) (length set0.old) × Within (length set0.old) gate }
    ensures { let S = sets set0.old set1.old set2.old set3.old in
        Lined S (sets set0.new set1.new set2.new set3.new) gate.result
        (gate_set (set_at S) (gate_by gate)) result }
{
    match Kind::of(gate.kind) {
        Kind::Xor | Kind::And => join(set0, set1, set2, set3, gate.left, gate.right, gate.result),
        Kind::Inv | Kind::Eqw => {
            members::copy(set0, set1, set2, set3, gate.left, gate.result);
            true
        }
        Kind::Eq(_) => {
            members::none(set0, gate.result);
            true
        }
    }
}

/// The sets of all wires of the gates' netlist, of which the first n are its inputs besides the mask pair. Says whether
/// at most twelve inputs reach each wire; after a no the tables are of no use.
pub fn reach(
    gates: Gates,
    inputs: usize,
    set0: &mut [u64],
    set1: &mut [u64],
    set2: &mut [u64],
    set3: &mut [u64],
) -> bool
    requires wired { WiredGates gates (length set0.old) }
    requires lengths { (inputs ≤ members_end) × (length set1.old ≡ length set0.old)
        × (length set2.old ≡ length set0.old)
        × (length set3.old ≡ length set0.old) }
    ensures { let S = sets set0.new set1.new set2.new set3.new in
        (result ≡ true → Sized S (length set0.old)) × ((o : ℕ) (N : Netlist)
        → HoldsGates gates.entry (length set0.old) (inputs + 2) o N → WellFormed N → Reached N inputs S result) }
{
    members::start(set0, inputs);
    for i in 0..gates.count {
        let gate = gates.at(i);
        if !line(set0, set1, set2, set3, gate) {
            return false;
        }
    }
    true
}
