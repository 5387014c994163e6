//! One lent block of 64-bit words for all working tables of a call: how many words it has, and where each table stands
//! in it. The calls of include/fidrovelj.h whose names end in `_in` lend these tables to the calls that stand.
ghost use Rattle.std.specs.Prelude.{◌≡◌, ◌≤◌, Some, length};
ghost use Rattle.capi.specs.declared.table_kinds.Kind.{Kind};
ghost use Rattle.capi.specs.Number.{sizes_of};
ghost use Rattle.capi.specs.Workspace.{kinds_of, wires_of, needed, place_of, span_of, kind_at, Fits};

use crate::answers::sizes;
use crate::table_kinds::Kind;
use crate::table_kinds::Kind::{Bytes, Halves, NameHalves, Names, Records, Words};
use netlist::Sizes;

/// A table in a block: the word that it starts at, and how many entries it has.
#[repr(C)]
#[derive(Clone, Copy, Default)]
pub struct Span {
    pub at: usize,
    pub entries: usize,
}

// The tables of a service, in the order of its parameters; none where no service has the number.
fn kinds(service: u8) -> &'static [Kind]
    ensures { (result.now ≡ kinds_of service) × (length result.now ≤ 16) }
{
    match service {
        1 | 2 | 3 | 18 => &[Words, Words, Bytes],
        4 | 5 | 21 => &[Words, Words, Bytes, Words],
        6 | 17 => &[Words, Words, Halves, Bytes],
        7 => &[Words, Words, Halves, Bytes, Bytes, Bytes, Words],
        8 => &[Words, Words, Bytes],
        9 | 14 | 20 => &[Words, Words, Bytes, Words, Words],
        10 => &[Words, Words, Bytes, Words, Words, Words],
        11 => &[
            Words, Words, Bytes, Words, Words, Words, Words, Words, Words, Words, Bytes,
        ],
        12 => &[Words, Words, Bytes, Words, Words, Records],
        13 => &[Words, Words, Halves],
        15 => &[Words, Words, Names, Names, Names, NameHalves, NameHalves],
        16 => &[Words, Words],
        19 => &[Bytes],
        22 => &[Words, Words, Bytes, Words, Bytes],
        _ => &[],
    }
}

// The most wires of a service's netlists.
fn wires(service: u8, sizes: Sizes) -> usize
    ensures { (result ≡ wires_of service sizes) × (result ≤ 899999) }
{
    match service {
        6 | 7 | 8 | 13 | 15 | 16 | 17 => sizes.source_limits().wires as usize,
        _ => sizes.masked_limits().wires as usize,
    }
}

// The words of some tables together.
fn total(kinds: &[Kind], wires: usize) -> usize
    requires { (length kinds.now ≤ 16) × (wires ≤ 899999) }
    ensures { result ≡ needed wires kinds.now }
{
    let mut sum: usize = 0;
    for i in 0..kinds.len() {
        sum += kinds[i].words(wires);
    }
    sum
}

// Where a table stands after those before it; at the block's start without an entry where there is no such table.
fn place(kinds: &[Kind], wires: usize, table: usize) -> Span
    requires { (length kinds.now ≤ 16) × (wires ≤ 899999) }
    ensures { result ≡ place_of wires 0 kinds.now table }
{
    let mut at: usize = 0;
    for i in 0..kinds.len() {
        let words = kinds[i].words(wires);
        if i == table {
            return Span {
                at,
                entries: kinds[i].entries(words),
            };
        }
        at += words;
    }
    Span { at: 0, entries: 0 }
}

/// How many words a service's tables have together, 0 where no service has the number.
#[unsafe(no_mangle)]
pub extern "C" fn fidrovelj_workspace_words(service: u8, whole: u8) -> usize
    ensures { result ≡ needed (wires_of service (sizes_of whole)) (kinds_of service) }
{
    total(kinds(service), wires(service, sizes(whole)))
}

/// Where a table of a service stands in a block of so many words. In a block of too few words the first table takes
/// all of them, and the others have no entry.
#[unsafe(no_mangle)]
pub extern "C" fn fidrovelj_workspace_span(
    service: u8,
    table: usize,
    words: usize,
    whole: u8,
) -> Span
    ensures span { result ≡ span_of (wires_of service (sizes_of whole)) (kinds_of service) words table }
    ensures fits { let W = wires_of service (sizes_of whole) in (k : Kind) → kind_at (kinds_of service) table ≡ Some k
        → needed W (kinds_of service) ≤ words → Fits W (kinds_of service) words table k result }
{
    let kinds = kinds(service);
    let wires = wires(service, sizes(whole));
    if total(kinds, wires) <= words {
        return place(kinds, wires, table);
    }
    if table == 0 && !kinds.is_empty() {
        return Span {
            at: 0,
            entries: kinds[0].entries(words),
        };
    }
    Span { at: 0, entries: 0 }
}
