//! Tables of records, as words: atoms exchanged, and atoms on which nothing depends.
ghost use Rattle.std.specs.Prelude.{◌≡◌, ◌<◌};
ghost use Rattle.certify_records.specs.Made.{exchange_of, free_of};

use crate::atom::AtomPlaces;

/// The places marked in `moved` exchanged with those so many above them.
pub fn exchange(table: u64, by: u32, moved: u64) -> u64
    requires { by < 64 }
    ensures { result ≡ exchange_of table by moved }
{
    let x = ((table >> by) ^ table) & moved;
    table ^ x ^ (x << by)
}

/// Whether a table does not depend on an atom.
pub fn is_independent(table: u64, atom: AtomPlaces) -> bool
    ensures { result ≡ free_of table atom.up atom.zero }
{
    ((table >> atom.up) ^ table) & atom.zero == 0
}
