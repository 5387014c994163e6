//! Whether a record's count depends on public atoms alone.
ghost use Rattle.std.specs.Prelude.{◌≡◌, true};
ghost use Rattle.certify_records.specs.Made.{settled, even_of};
ghost use Rattle.certify_records.specs.Even.{Even};

use crate::atom::{AtomPlaces, FIRST, FOURTH, SECOND, THIRD};
use crate::{Record, table};
use leak_search::nibble;

// Whether an atom is public or nothing depends on it.
fn is_settled(is_public: bool, table: u64, atom: AtomPlaces) -> bool
    ensures { result ≡ settled is_public table atom.up atom.zero }
{
    is_public || table::is_independent(table, atom)
}

/// Whether the count depends on those atoms alone that are public. All four are asked: each is a few instructions,
/// which are fewer than jumps.
pub fn has_equal_counts(known: Record, first: bool, second: bool, third: bool, fourth: bool) -> bool
    ensures says { result ≡ true → Even known first second third fourth }
    ensures is { result ≡ even_of known first second third fourth }
{
    let counts = nibble::counts(known.table);
    is_settled(first, counts, FIRST)
        & is_settled(second, counts, SECOND)
        & is_settled(third, counts, THIRD)
        & is_settled(fourth, counts, FOURTH)
}
