//! Atoms on which a record's table does not depend are left out.
ghost use Rattle.std.specs.Prelude.{◌≡◌, ℕ, ◌<◌, T};
ghost use Rattle.evaluate.specs.Lane.{lane};
ghost use Rattle.certify_records.specs.Place.{turned, turns_at};
ghost use Rattle.certify_records.specs.Record.{Says};
ghost use Rattle.certify_records.specs.Made.{low_of, middle_of, high_of, without_of, reduced_of};

use crate::align::{high, low, middle};
use crate::atom::{AtomPlaces, FIRST, FOURTH, SECOND, THIRD};
use crate::{NO_ATOM, Record, table};

// The first place moved to the end.
fn first_last(known: Record) -> Record
    ensures says { Says known result }
    ensures is { result ≡ high_of (middle_of (low_of known)) }
{
    high(middle(low(known)))
}

// The second place moved to the end.
fn second_last(known: Record) -> Record
    ensures says { Says known result }
    ensures is { result ≡ high_of (middle_of known) }
{
    high(middle(known))
}

// The last place, which is at the end.
fn last_stays(known: Record) -> Record
    ensures says { Says known result }
    ensures is { result ≡ known }
{
    known
}

// An atom left out, if nothing depends on it: `left` is the record without it, whose place `last` moves to the end.
fn without<F: Fn(Record) -> Record>(
    r: Record,
    atom: u32,
    places: AtomPlaces,
    left: Record,
    last: F,
) -> Record
    requires left_out { ((j : ℕ) → T (turns_at j places.up places.zero) → (l : ℕ) → l < 64 → lane l r.table
        ≡ lane (turned j l) r.table)
        → Says r left }
    requires callable { F.IsAlwaysCallable last }
    requires says { (x y : _) → F.post last x y → Says x y }
    ensures says { Says r result }
    ensures is { (f : Record → Record) → ((x y : _) → F.post last x y → y ≡ f x)
        → result ≡ without_of r atom places.up places.zero (f left) }
{
    if atom != NO_ATOM && table::is_independent(r.table, places) {
        last(left)
    } else {
        r
    }
}

/// Every atom left out on which nothing depends.
pub fn reduced(known: Record) -> Record
    ensures says { Says known result }
    ensures is { result ≡ reduced_of known }
{
    let left = Record {
        fourth: NO_ATOM,
        ..known
    };
    let a = without(known, known.fourth, FOURTH, left, last_stays);
    let left = Record {
        third: NO_ATOM,
        ..a
    };
    let b = without(a, a.third, THIRD, left, high);
    let left = Record {
        second: NO_ATOM,
        ..b
    };
    let c = without(b, b.second, SECOND, left, second_last);
    let left = Record {
        first: NO_ATOM,
        ..c
    };
    without(c, c.first, FIRST, left, first_last)
}
