//! Records: what the certifier knows of a wire.
#![tactic(auto)]

mod align;
mod atom;
pub mod even;
pub mod leaf;
pub mod mix;
mod reduce;
mod table;

ghost use Rattle.std.specs.Prelude.{◌≡◌, true, ◌<◌};
ghost use Rattle.certify_records.specs.Record.{JoinIs, SameAtoms, over};
ghost use Rattle.certify_records.specs.Made.{combined, same_atoms};

/// No atom.
pub const NO_ATOM: u32 = 0xffff_ffff;

/// The most wires that have atoms: the numbers of the atoms of a wire w, 8 w to 8 w + 7, are then below 2^31, and none
/// is `NO_ATOM`.
pub const MOST_WIRES: usize = 0x1000_0000;

/// Up to four atoms, rising, and a table: bit 4 s + m is the wire's bit at mask setting m where atom j has bit j of s.
#[derive(Clone, Copy)]
pub struct Record {
    pub table: u64,
    pub first: u32,
    pub second: u32,
    pub third: u32,
    pub fourth: u32,
}

impl Record {
    /// The record over one atom.
    pub fn over(table: u64, atom: u32) -> Record
        ensures { result ≡ over table atom }
    {
        Record {
            table,
            first: atom,
            second: NO_ATOM,
            third: NO_ATOM,
            fourth: NO_ATOM,
        }
    }
}

/// Whether two records have the same atoms.
pub fn have_same_atoms(known: Record, other: Record) -> bool
    ensures says { result ≡ true → SameAtoms known other }
    ensures is { result ≡ same_atoms known other }
{
    known.first == other.first
        && known.second == other.second
        && known.third == other.third
        && known.fourth == other.fourth
}

/// The record of what a kind of gate makes of two wires, from a record of each; none where it has more than four atoms.
/// Atoms on which nothing depends are left out. The kind stays the number of the tables: `evaluate::gate::made` works
/// by it without a jump.
pub fn combine(kind: usize, first: Record, second: Record) -> Option<Record>
    requires { kind < 8 }
    ensures says { JoinIs kind first second result }
    ensures is { result ≡ combined kind first second }
{
    let (left, right) = align::aligned(first, second);
    let r = align::meet(kind, left, right)?;
    Some(reduce::reduced(r))
}
