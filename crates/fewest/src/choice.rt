//! One choice of the search: it is tried from the place that moved on, until it is done or as many changes are reached
//! as the best has; a choice that costs what one before it cost is not tried.
ghost use Rattle.std.specs.Prelude.{◌≡◌, ◌+◌, ◌-◌, ◌≤◌, ◌<◌, ◌^◌, length, get_or};
ghost use Rattle.gates.specs.Gates.{WiredGates};
ghost use Rattle.fewest.specs.Try.{idle_at, cost_of};
ghost use Rattle.fewest.specs.Coded.{FitsFor, EnteredFor, TriedFor};

use crate::gate_walk::walk_gates;
use crate::outputs::outputs;
use gates::Gates;
use gates::coded::CodedGates;

/// How many gates of a choice are done, and the changes of the best choice so far.
#[derive(Clone, Copy)]
pub struct Tried {
    pub stop: usize,
    pub least: u32,
}

// Whether the place is an AND's, as it stands in the table of its operands, whose operands have equal codes.
fn is_idle(gates: Gates, count: usize, place: usize, wire_codes: &[u8]) -> bool
    requires { WiredGates gates (length wire_codes.now) × (place < count + gates.count) }
    ensures { result ≡ idle_at gates.entry.operands.now count place wire_codes.now }
{
    if place < count {
        return false;
    }
    let g = gates.at(place - count);
    wire_codes[g.left] == wire_codes[g.right]
}

/// The choice in `way` from a place on: how many gates are done.
pub fn walk_from(
    source: CodedGates,
    way: &[u8],
    wire_codes: &mut [u8],
    least_before: &mut [u32],
    place: usize,
    bound: u32,
) -> usize
    requires wired { WiredGates source.gates (length wire_codes.old) }
    requires count_in_bounds { (length source.codes.now + source.gates.count ≤ length way.now)
        × (length source.codes.now ≤ length wire_codes.old)
        × (source.gates.count < length least_before.old)
        × (place - length source.codes.now ≤ source.gates.count)
        × (get_or least_before.old (place - length source.codes.now) 0 + source.gates.count < 2 ^ 32) }
    ensures { EnteredFor source.entry way.now place bound wire_codes.old least_before.old wire_codes.new
        least_before.new result }
{
    let n = source.codes.len();
    if place < n {
        crate::inputs::inputs(source.codes, way, wire_codes);
        return walk_gates(source.gates, &way[n..], wire_codes, least_before, 0, bound);
    }
    walk_gates(
        source.gates,
        &way[n..],
        wire_codes,
        least_before,
        place - n,
        bound,
    )
}

/// The changes of a choice whose gates are all done.
pub fn count_changes(source: CodedGates, wire_codes: &[u8], least_before: &[u32]) -> u32
    requires { (source.gates.count < length least_before.now)
        × (length source.wanted.now ≤ length wire_codes.now)
        × (length source.wanted.now < 2 ^ 31)
        × (get_or least_before.now source.gates.count 0 < 2 ^ 31) }
    ensures { result ≡ cost_of wire_codes.now least_before.now source.entry.gates.count source.entry.wanted.now }
{
    least_before[source.gates.count]
        + outputs(
            &wire_codes[wire_codes.len() - source.wanted.len()..],
            source.wanted,
        )
}

/// The choice in `way`, whose last place that moved is `place`; `best` gets it where it has fewer changes than the
/// least so far.
pub fn try_choice(
    source: CodedGates,
    way: &[u8],
    best: &mut [u8],
    wire_codes: &mut [u8],
    least_before: &mut [u32],
    place: usize,
    least: u32,
) -> Tried
    requires fits { FitsFor source way.now best.old wire_codes.old least_before.old }
    requires place_in_bounds { (place < length source.codes.now + source.gates.count)
        × (get_or least_before.old (place - length source.codes.now) 0 ≤ source.gates.count) }
    ensures { TriedFor source.entry way.now place least best.old wire_codes.old least_before.old best.new wire_codes.new
        least_before.new result }
{
    let n = source.codes.len();
    if is_idle(source.gates, n, place, wire_codes) {
        return Tried {
            stop: place - n + 1,
            least,
        };
    }
    let stop = walk_from(source, way, wire_codes, least_before, place, least);
    if stop < source.gates.count {
        return Tried { stop, least };
    }
    let c = count_changes(source, wire_codes, least_before);
    if least <= c {
        return Tried { stop, least };
    }
    gates::entries::copy(way, best);
    Tried { stop, least: c }
}
