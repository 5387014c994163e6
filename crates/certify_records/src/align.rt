//! Two records over the same atoms. The words handed to `table::exchange` mark the places where the first of the two
//! atoms that change places is one and the other zero.
ghost use Rattle.std.specs.Prelude.{◌≡◌, ◌<◌};
ghost use Rattle.certify_records.specs.Record.{Says, JoinIs, EitherIs};
ghost use Rattle.certify_records.specs.Made.{low_of, middle_of, high_of, room_first_of, room_second_of, align_of};
ghost use Rattle.certify_records.specs.Made.{aligned_of, one_of, meet_of};

use crate::{NO_ATOM, Record, table};

/// The first two atoms exchanged.
pub fn low(known: Record) -> Record
    ensures says { Says known result }
    ensures is { result ≡ low_of known }
{
    Record {
        table: table::exchange(known.table, 4, 0x00f0_00f0_00f0_00f0),
        first: known.second,
        second: known.first,
        ..known
    }
}

/// The middle two atoms exchanged.
pub fn middle(known: Record) -> Record
    ensures says { Says known result }
    ensures is { result ≡ middle_of known }
{
    Record {
        table: table::exchange(known.table, 8, 0x0000_ff00_0000_ff00),
        second: known.third,
        third: known.second,
        ..known
    }
}

/// The last two atoms exchanged.
pub fn high(known: Record) -> Record
    ensures says { Says known result }
    ensures is { result ≡ high_of known }
{
    Record {
        table: table::exchange(known.table, 16, 0x0000_0000_ffff_0000),
        third: known.fourth,
        fourth: known.third,
        ..known
    }
}

// Room in the first place: the fourth atom, which is none where the records fit together, comes there.
fn room_first(known: Record) -> Record
    ensures says { Says known result }
    ensures is { result ≡ room_first_of known }
{
    low(middle(high(known)))
}

// Room in the second place.
fn room_second(known: Record) -> Record
    ensures says { Says known result }
    ensures is { result ≡ room_second_of known }
{
    middle(high(known))
}

// Of a place where the records have atoms a and b: the lower atom stays, and the other record gets room there.
fn align<F: Fn(Record) -> Record>(x: Record, y: Record, a: u32, b: u32, room: F) -> (Record, Record)
    requires callable { F.IsAlwaysCallable room }
    requires says { (r s : _) → F.post room r s → Says r s }
    ensures says { Says x result.0 × Says y result.1 }
    ensures is { (f : Record → Record) → ((r s : _) → F.post room r s → s ≡ f r) → result ≡ align_of f x y a b }
{
    if a < b {
        (x, room(y))
    } else if b < a {
        (room(x), y)
    } else {
        (x, y)
    }
}

/// Equal atoms in equal places, where all fit in four.
pub fn aligned(first: Record, second: Record) -> (Record, Record)
    ensures says { Says first result.0 × Says second result.1 }
    ensures is { result ≡ aligned_of first second }
{
    let (p, q) = align(first, second, first.first, second.first, room_first);
    let (s, t) = align(p, q, p.second, q.second, room_second);
    align(s, t, s.third, t.third, high)
}

// The atom of a place of two records, `NO_ATOM` where both have none, if they have no different atoms there. The Option
// says whether they fit; a place without an atom stays a number, as the records hold it.
fn either(first: u32, second: u32) -> Option<u32>
    ensures says { EitherIs first second result }
    ensures is { result ≡ one_of first second }
{
    if first == NO_ATOM {
        return Some(second);
    }
    if second == NO_ATOM || first == second {
        Some(first)
    } else {
        None
    }
}

/// What a kind of gate makes of two wires, from records with the same atoms in the same places; none where they have
/// not.
pub fn meet(kind: usize, left: Record, right: Record) -> Option<Record>
    requires { kind < 8 }
    ensures says { JoinIs kind left right result }
    ensures is { result ≡ meet_of kind left right }
{
    let first = either(left.first, right.first)?;
    let second = either(left.second, right.second)?;
    let third = either(left.third, right.third)?;
    let fourth = either(left.fourth, right.fourth)?;
    Some(Record {
        table: evaluate::gate::made(kind, left.table, right.table),
        first,
        second,
        third,
        fourth,
    })
}
