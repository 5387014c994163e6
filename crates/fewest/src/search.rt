//! All choices in order, as many as the budget allows.
ghost use Rattle.std.specs.Prelude.{◌≡◌, ◌≤◌, length};
ghost use Rattle.netlist.specs.Netlist.{Netlist};
ghost use Rattle.fewest.specs.Search.{Found};
ghost use Rattle.fewest.specs.Coded.{FitsFor, SourceFor, SearchableFor, BegunFor};

use crate::choice::{count_changes, try_choice, walk_from};
use gates::coded::CodedGates;

// More changes than any choice has: the bound of the first walk, which never reaches it.
const MANY: u32 = u32::MAX;

/// The changes of the choice that is given, and the floor.
#[derive(Clone, Copy)]
pub struct Tally {
    pub changes: u32,
    pub floor: u32,
}

// The first choice: its changes. `spans` gets for each place how many choices share the places up to it.
fn start(
    source: CodedGates,
    way: &mut [u8],
    best: &mut [u8],
    wire_codes: &mut [u8],
    least_before: &mut [u32],
    spans: &mut [u64],
) -> u32
    requires { FitsFor source way.old best.old wire_codes.old least_before.old
        × (length spans.old ≡ length wire_codes.old) }
    ensures { BegunFor source.entry way.old wire_codes.old least_before.old spans.old way.new best.new
        wire_codes.new least_before.new spans.new result }
{
    way.fill(0);
    crate::spans::spans(
        source.codes,
        &source.gates.results[..source.gates.count],
        spans,
    );
    least_before[0] = crate::twices::twices(source.gates);
    walk_from(source, way, wire_codes, least_before, 0, MANY);
    gates::entries::copy(way, best);
    count_changes(source, wire_codes, least_before)
}

/// The first choice with the fewest changes among as many as the budget allows, into `best`, its changes and the floor.
/// The gate tables hold a netlist with codes for its inputs, 4 being free; the other tables have an entry for each
/// wire, and may hold anything. Choices that share their first places are passed together, and counted, where none of
/// them has fewer changes than the best so far; all that are left are where the best has no more changes than there are
/// gates that name one wire twice.
pub fn search(
    source: CodedGates,
    budget: u64,
    way: &mut [u8],
    best: &mut [u8],
    wire_codes: &mut [u8],
    least_before: &mut [u32],
    spans: &mut [u64],
) -> Tally
    requires { SearchableFor source way.old best.old wire_codes.old least_before.old spans.old × (1 ≤ budget) }
    ensures { (N : Netlist) → SourceFor source.entry (length wire_codes.old) N
        → Found N source.entry.codes.now source.entry.wanted.now budget best.new result }
{
    let n = source.codes.len();
    let mut least = start(source, way, best, wire_codes, least_before, spans);
    let mut stop = source.gates.count;
    let mut left = budget;
    loop {
        if least <= least_before[0] {
            return Tally {
                changes: least,
                floor: least,
            };
        }
        let span = spans[n + stop - 1];
        if left < span {
            return Tally {
                changes: least,
                floor: least_before[0],
            };
        }
        left -= span;
        let Some(place) = crate::next::next(source.codes, &source.gates.results[..stop], way) else {
            return Tally {
                changes: least,
                floor: least,
            };
        };
        if left == 0 {
            return Tally {
                changes: least,
                floor: least_before[0],
            };
        }
        let t = try_choice(source, way, best, wire_codes, least_before, place, least);
        stop = t.stop;
        least = t.least;
    }
}
