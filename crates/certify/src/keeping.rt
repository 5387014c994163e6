//! Which records of a wire are kept besides its first one: at most four, those with the fewest atoms, one for each list
//! of atoms.
ghost use Rattle.std.specs.Prelude.{◌≡◌, ℕ, ◌+◌, ◌*◌, ◌/◌, ◌<◌, ◌≤◌, List, length};
ghost use Rattle.netlist.specs.Netlist.{Netlist};
ghost use Rattle.certify.specs.Known.{Known};
ghost use Rattle.certify.specs.Store.{Recorded, KnownIf, atoms_of};
ghost use Rattle.certify.specs.Kept.{record_if, is_like, stepped, kept};

use crate::store;
use certify_records::{NO_ATOM, Record};

/// How many atoms a record has.
pub fn atoms(known: Record) -> u8
    ensures { result ≡ atoms_of known }
{
    if known.fourth != NO_ATOM {
        4
    } else if known.third != NO_ATOM {
        3
    } else if known.second != NO_ATOM {
        2
    } else if known.first != NO_ATOM {
        1
    } else {
        0
    }
}

// A record comes to place q: it is put there if the place is free, or if its atoms are fewer than those of the record
// there, which then goes on. Returns the record that is still to be put, if there is one.
fn step(records: &mut [u64], place: usize, known: Record) -> Option<Record>
    requires { 3 * place + 3 ≤ length records.old }
    ensures says { (N : Netlist) (codes : List ℕ) → Recorded N codes records.old → Known N codes (place / 5) known
        → Recorded N codes records.new × KnownIf N codes (place / 5) result }
    ensures is { (records.new, result) ≡ stepped records.old place known }
{
    let Some(there) = store::get(records, place) else {
        store::put(records, place, known);
        return None;
    };
    if certify_records::have_same_atoms(there, known) {
        return None;
    }
    if atoms(known) < atoms(there) {
        store::put(records, place, known);
        return Some(there);
    }
    Some(known)
}

// Whether the first record of wire w has the atoms of another.
fn is_like_first(records: &[u64], wire: usize, known: Record) -> bool
    requires { 15 * wire + 15 ≤ length records.now }
    ensures { result ≡ is_like (record_if records.now (5 * wire)) known }
{
    match store::get(records, 5 * wire) {
        Some(first) => certify_records::have_same_atoms(first, known),
        None => false,
    }
}

/// A record of wire w comes to its places 1 to 4, where its atoms are not those of the first one.
pub fn keep(records: &mut [u64], wire: usize, known: Record)
    requires { 15 * wire + 15 ≤ length records.old }
    ensures says { (N : Netlist) (codes : List ℕ) → Recorded N codes records.old → Known N codes wire known
        → Recorded N codes records.new }
    ensures is { records.new ≡ kept wire records.old known }
{
    if is_like_first(records, wire, known) {
        return;
    }
    let mut carried = known;
    for k in 1..5 {
        let Some(s) = step(records, 5 * wire + k, carried) else {
            return;
        };
        carried = s;
    }
}
