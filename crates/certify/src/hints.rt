//! Hints: atoms that may be the same bit as an atom of another wire. A hint is an atom and, above it, the number of a
//! record of its wire, and is tried before it is used: nothing depends on what it says, or on the place where it
//! stands.
ghost use Rattle.std.specs.Prelude.{◌≡◌, List, ℕ, ◌+◌, ◌*◌, ◌<◌, ◌≤◌, length};
ghost use Rattle.netlist.specs.Netlist.{Netlist};
ghost use Rattle.certify.specs.Known.{Known};
ghost use Rattle.certify.specs.Store.{Recorded, KnownIf};
ghost use Rattle.certify.specs.Kept as Kept;
ghost use Rattle.certify.specs.Kept.{place_of};

use crate::store;
use certify_records::mix::mixed;
use certify_records::{NO_ATOM, Record, leaf};
use gates::halves::{pack, unpack};

// The place of the hint for a function of a record's atoms.
fn place(known: Record, selector: u64, places: usize) -> usize
    requires { 0 < places }
    ensures bound { result < places }
    ensures is { result ≡ place_of known selector places }
{
    let low = pack(known.first, known.second);
    let high = pack(known.third, known.fourth);
    (mixed(mixed(selector ^ low) ^ high) % places as u64) as usize
}

// A leaf of wire w over the atom of a hint, if that is the same bit as its own: record r of wire w and the hint's
// record show it.
fn tried(records: &[u64], hint: u64, wire: usize, known: Record, leaf: Record) -> Option<Record>
    ensures says { (N : Netlist) (codes : List ℕ) → Recorded N codes records.now → Known N codes wire known
        → Known N codes wire leaf
        → KnownIf N codes wire result }
    ensures is { result ≡ Kept.tried records.now hint wire known leaf }
{
    let (atom, record) = unpack(hint);
    let q = record as usize;
    if atom == NO_ATOM {
        return None;
    }
    if (atom / 8) as usize != q / 5 {
        return None;
    }
    if (leaf.first / 8) as usize != wire {
        return None;
    }
    if records.len() / 3 <= q {
        return None;
    }
    let s = store::get(records, q)?;
    if !leaf::is_same_atom(known, leaf.first, s, atom) {
        return None;
    }
    Some(Record {
        first: atom,
        ..leaf
    })
}

/// The leaf of wire w that its k-th record gives, over the atom of the hint for it if that will do; if not, the leaf's
/// own atom is the hint.
pub fn hinted(
    records: &[u64],
    hints: &mut [u64],
    wire: usize,
    index: usize,
    known: Record,
    leaf: Record,
) -> Record
    requires { (15 * wire + 15 ≤ length records.now) × (index < 5) }
    ensures says { (N : Netlist) (codes : List ℕ) → Recorded N codes records.now → Known N codes wire known
        → Known N codes wire leaf
        → Known N codes wire result }
    ensures is { (result, hints.new) ≡ Kept.hinted records.now hints.old wire index known leaf }
{
    let places = hints.len();
    if places == 0 {
        return leaf;
    }
    let i = place(known, leaf::selector(known.table, leaf.first), places);
    let Some(s) = tried(records, hints[i], wire, known, leaf) else {
        let (record, _) = unpack((5 * wire + index) as u64);
        hints[i] = pack(leaf.first, record);
        return leaf;
    };
    s
}
