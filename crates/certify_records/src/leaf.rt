//! A wire that shows only two different nibbles is decided by what it shows at one mask setting. In a table
//! 0x1111_1111_1111_1111 marks the lowest bit of each nibble, times 15 all four, and 0xf0f0_f0f0_f0f0_f0f0 the nibbles
//! where the first atom is one.
ghost use Rattle.std.specs.Prelude.{◌≡◌, true, ℕ, ◌+◌, ◌*◌, ◌/◌, ◌%◌, ◌<◌};
ghost use Rattle.netlist.specs.Eval.{differs, bit};
ghost use Rattle.evaluate.specs.Lane.{lane};
ghost use Rattle.certify_records.specs.Leaf.{TwoIs, LeafIs, OneAtom};
ghost use Rattle.certify_records.specs.Made.{chosen_of, leaf_of, selector_of, one_atom};

use crate::{MOST_WIRES, Record};
use evaluate::gate;
use leak_search::nibble;

// The lowest mask setting in which a table varies, and the table over its atom, if that decides the whole; none where
// there are more than two nibbles, or one.
fn chosen(table: u64) -> Option<(u32, u64)>
    ensures says { TwoIs table result }
    ensures is { result ≡ chosen_of table }
{
    let low = nibble::repeat(table);
    let x = table ^ low;
    if x == 0 {
        return None;
    }
    let place = u64::trailing_zeros(x);
    let m = place % 4;
    let d = nibble::repeat(nibble::at(x, place / 4) as u64);
    if x != (((x >> m) & 0x1111_1111_1111_1111) * 15) & d {
        return None;
    }
    Some((m, low ^ (d & 0xf0f0_f0f0_f0f0_f0f0)))
}

// The atom of a wire at a mask setting, zero in the first setting of a table's atoms.
fn own_atom(table: u64, wire: usize, setting: u32) -> u32
    requires { (wire < 268435456) × (setting < 4) }
    ensures { result ≡ 8 * wire + (2 * setting + bit (lane setting table)) }
{
    8 * wire as u32 + (2 * setting + ((table >> setting) & 1) as u32)
}

/// The record of a wire over one atom of its own, if one of its records shows only two nibbles.
pub fn leaf(known: Record, wire: usize) -> Option<Record>
    ensures says { LeafIs wire known result }
    ensures is { result ≡ leaf_of known wire }
{
    if MOST_WIRES <= wire {
        return None;
    }
    let (m, table) = chosen(known.table)?;
    Some(Record::over(table, own_atom(known.table, wire, m)))
}

/// What an atom of a wire is where a record's atoms have setting s, in bit 4 s.
pub fn selector(table: u64, atom: u32) -> u64
    ensures says { (s : ℕ) → s < 16 → lane (4 * s) result ≡ differs (lane (atom / 2 % 4 + 4 * s) table) (lane 0 atom) }
    ensures is { result ≡ selector_of table atom }
{
    ((table >> (atom / 2 % 4)) ^ gate::spread(atom as u64, 0)) & 0x1111_1111_1111_1111
}

/// Whether records of two wires show that an atom of one is an atom of the other: by the same function of the same
/// atoms.
pub fn is_same_atom(known: Record, atom: u32, other: Record, other_atom: u32) -> bool
    ensures says { result ≡ true → OneAtom known atom other other_atom }
    ensures is { result ≡ one_atom known atom other other_atom }
{
    crate::have_same_atoms(known, other)
        && selector(known.table, atom) == selector(other.table, other_atom)
}
