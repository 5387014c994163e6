//! Passes: the inputs are coloured for as many items as they can serve, and one search over the painted settings judges
//! those. `start` stands beside the items and in no struct with them: `search` asks for the wires and then for the
//! pairs of one job, at two starts.
ghost use Rattle.std.specs.Prelude.{◌≡◌, ℕ, ◌+◌, ◌*◌, ◌/◌, ◌≤◌, ◌<◌, length};
ghost use Rattle.netlist.specs.Netlist.{Netlist};
ghost use Rattle.gates.specs.Gates.{WiredGates};
ghost use Rattle.check_wide.specs.Served.{count_of, ServingItems};
ghost use Rattle.check_wide.specs.Judging.{GivenJob, Judging};

use crate::item;
use crate::items::Items;
use crate::job::Job;
use gates::entries::put;
use leak_search::difference;

/// The lowest wire and the first pair that are known not to meet the rule, or the numbers of wires and pairs: numbers
/// and not options, since each pass looks below them.
#[derive(Clone, Copy)]
pub struct Worst {
    pub wire: usize,
    pub pair: usize,
}

// Item k gets colours, where it is not marked and they can be different; then it is marked.
fn serve(items: Items, start: usize, item: usize, paints: &mut [u8], marks: &mut [u8])
    requires { start + item < count_of items }
    ensures { ServingItems items.entry start marks.old marks.new paints.old paints.new }
{
    if item::marked(marks, item) {
        return;
    }
    let m = item::set(items, start + item);
    if crate::colours::fit(m, paints) {
        put(marks, item, 1);
    }
}

// The items from `start` on, x of them, get colours from the last to the first: later wires are reached by more inputs.
fn serve_all(items: Items, start: usize, count: usize, paints: &mut [u8], marks: &mut [u8])
    requires { start + count ≤ count_of items }
    ensures { ServingItems items.entry start marks.old marks.new paints.old paints.new }
{
    for x in (0..count).rev() {
        serve(items, start, x, paints, marks);
    }
}

// The inputs are coloured for item `start` + x, unless it is marked, and for as many of the items before it as they can
// serve; the settings that the colours give are searched on wires and pairs that may still be worse.
fn pass(
    job: Job,
    start: usize,
    item: usize,
    worst: Worst,
    paints: &mut [u8],
    marks: &mut [u8],
    words: &mut [u64],
    base: &mut [u64],
    bases: &mut [u64],
) -> Worst
    requires wired { WiredGates job.gates (length words.old)
        × (start + item < count_of job.items) }
    requires lengths { (length paints.old ≡ length job.codes.list.now)
        × (length job.items.sets.set0.now ≡ length words.old)
        × (length job.codes.list.now + 2 ≤ length words.old) × (length bases.old ≡ length words.old)
        × (length base.old ≡ length words.old)
        × (worst.wire ≤ length words.old) × (worst.pair ≤ length job.items.pairs.now / 2) }
    ensures { (result.wire ≤ worst.wire) × (result.pair ≤ worst.pair) × ((o n : ℕ) (N : Netlist)
        → GivenJob job.entry (length words.old) o N → item < n
        → start + n ≤ length words.old + length job.entry.items.pairs.now / 2
        → Judging N job.entry.codes.list.now job.entry.items.pairs.now marks.old (length words.old) start n (item + 1)
        worst.wire worst.pair
        → Judging N job.entry.codes.list.now job.entry.items.pairs.now marks.new (length words.old) start n item
        result.wire result.pair) }
{
    if item::marked(marks, item) {
        return worst;
    }
    crate::colours::lay(job.codes.list, paints);
    let m = item::set(job.items, start + item);
    crate::colours::seed(m, paints);
    serve_all(job.items, start, item, paints, marks);
    let blocks = leak_search::search::blocks_of(crate::colours::most(paints));
    let limit = worst.pair;
    let found = check_pairs::search::find(
        job.gates,
        paints,
        &job.items.pairs[..2 * limit],
        worst.wire,
        blocks,
        words,
        bases,
        base,
    );
    Worst {
        wire: difference::limit(found.leak, worst.wire),
        pair: found.pair.unwrap_or(limit),
    }
}

/// The items from `start` on, `total` of them, are judged, from the last to the first.
pub fn passes(
    job: Job,
    start: usize,
    total: usize,
    worst: Worst,
    paints: &mut [u8],
    marks: &mut [u8],
    words: &mut [u64],
    base: &mut [u64],
    bases: &mut [u64],
) -> Worst
    requires wired { WiredGates job.gates (length words.old)
        × (start + total ≤ count_of job.items) }
    requires lengths { (length paints.old ≡ length job.codes.list.now)
        × (length job.items.sets.set0.now ≡ length words.old)
        × (length job.codes.list.now + 2 ≤ length words.old) × (length bases.old ≡ length words.old)
        × (length base.old ≡ length words.old)
        × (worst.wire ≤ length words.old) × (worst.pair ≤ length job.items.pairs.now / 2) }
    ensures { (result.wire ≤ worst.wire) × (result.pair ≤ worst.pair) × ((o : ℕ) (N : Netlist)
        → GivenJob job.entry (length words.old) o N
        → Judging N job.entry.codes.list.now job.entry.items.pairs.now marks.old (length words.old) start total total
        worst.wire worst.pair
        → Judging N job.entry.codes.list.now job.entry.items.pairs.now marks.new (length words.old) start total 0
        result.wire result.pair) }
{
    let mut worst = worst;
    for x in (0..total).rev() {
        worst = pass(job, start, x, worst, paints, marks, words, base, bases);
    }
    worst
}
