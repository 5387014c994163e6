//! The verdicts on wires and pairs of a netlist with many inputs.
ghost use Rattle.std.specs.Prelude.{◌≡◌, ℕ, ◌+◌, ◌/◌, ◌≤◌, ◌<◌, length, take, List};
ghost use Rattle.netlist.specs.Netlist.{Netlist};
ghost use Rattle.gates.specs.Gates.{WiredGates};
ghost use Rattle.masking.specs.Leak.{leak as leak_of};
ghost use Rattle.check_pairs.specs.Pairs.{clean_pair, first_bad};
ghost use Rattle.check_pairs.specs.Search.{bad_of};
ghost use Rattle.check_wide.specs.Sets.{picked};
ghost use Rattle.check_wide.specs.Wide.{listed};
ghost use Rattle.check_wide.specs.Judging.{GivenJob, Lowest};
ghost use Rattle.check_wide.specs.Told.{told_of};

use crate::job::Job;
use crate::members::{InputSet, Ones};
use crate::pass;
use crate::pass::Worst;
use check_pairs::search::PairsFound;
use leak_search::difference::Leak;

/// A leak, whose setting is told by the input bits that are one in it.
pub type WideLeak = Leak<Ones>;

/// What was found on wires and pairs, with such a leak.
pub type WideFound = PairsFound<Ones>;

// Of the members of a set, those whose bit of a number is one. Each is written, and the next written over it where its
// bit is zero.
fn pick(members: InputSet, number: u64) -> Ones
    ensures { take result.count result.items ≡ picked (take members.count members.items) number }
{
    let mut items = [0u32; 12];
    let mut count = 0;
    let mut rest = number;
    for item in &members.items[..members.count] {
        items[count] = *item;
        count += (rest % 2) as usize;
        rest /= 2;
    }
    Ones { items, count }
}

// The lowest wire and the first pair that do not meet the rule.
fn lowest(
    job: Job,
    paints: &mut [u8],
    marks: &mut [u8],
    words: &mut [u64],
    base: &mut [u64],
    bases: &mut [u64],
) -> Worst
    requires wired { WiredGates job.gates (length words.old) }
    requires lengths { (length paints.old ≡ length job.codes.list.now)
        × (length job.items.sets.set0.now ≡ length words.old)
        × (length job.codes.list.now + 2 ≤ length words.old) × (length bases.old ≡ length words.old)
        × (length base.old ≡ length words.old) }
    ensures { (result.wire ≤ length words.old) × (result.pair ≤ length job.entry.items.pairs.now / 2)
        × ((o : ℕ) (N : Netlist)
        → GivenJob job.entry (length words.old) o N
        → Lowest N job.entry.codes.list.now job.entry.items.pairs.now (length words.old) result.wire result.pair) }
{
    let wires = words.len();
    let listed = job.items.pairs.len() / 2;
    marks.fill(0);
    let worst = pass::passes(
        job,
        0,
        wires,
        Worst {
            wire: wires,
            pair: listed,
        },
        paints,
        marks,
        words,
        base,
        bases,
    );
    marks.fill(0);
    pass::passes(job, wires, listed, worst, paints, marks, words, base, bases)
}

// The leak of the lowest wire that does not meet the rule: its inputs take the colours 1, 2, 3 and so on, so that the
// first number whose counts differ is that of the smallest setting.
fn tell(
    job: Job,
    wire: usize,
    paints: &mut [u8],
    words: &mut [u64],
    base: &mut [u64],
    bases: &mut [u64],
) -> Option<WideLeak>
    requires wired { WiredGates job.gates (length words.old)
        × (wire < length words.old) }
    requires lengths { (length paints.old ≡ length job.codes.list.now)
        × (length job.items.sets.set0.now ≡ length words.old)
        × (length job.codes.list.now + 2 ≤ length words.old) × (length bases.old ≡ length words.old)
        × (length base.old ≡ length words.old) }
    ensures { (o pair : ℕ) (ws : List ℕ) (N : Netlist) → GivenJob job.entry (length words.old) o N
        → Lowest N job.entry.codes.list.now ws (length words.old) wire pair
        → told_of result ≡ listed (length job.entry.codes.list.now) (leak_of N job.entry.codes.list.now) }
{
    crate::colours::lay(job.codes.list, paints);
    let m = job.items.sets.at(wire);
    crate::colours::seed(m, paints);
    let blocks = leak_search::search::blocks_of(m.count);
    let found = check_pairs::search::find(
        job.gates,
        paints,
        &[],
        wire + 1,
        blocks,
        words,
        bases,
        base,
    );
    let leak = found.leak?;
    Some(WideLeak {
        wire,
        setting: pick(m, leak.setting),
        base: leak.base,
        own: leak.own,
    })
}

/// Whether the gates' netlist is clean under the input codes, and each listed pair of its wires. The sets are those of
/// its wires.
pub fn search(
    job: Job,
    paints: &mut [u8],
    marks: &mut [u8],
    words: &mut [u64],
    base: &mut [u64],
    bases: &mut [u64],
) -> WideFound
    requires wired { WiredGates job.gates (length words.old) }
    requires lengths { (length paints.old ≡ length job.codes.list.now)
        × (length job.items.sets.set0.now ≡ length words.old)
        × (length job.codes.list.now + 2 ≤ length words.old) × (length bases.old ≡ length words.old)
        × (length base.old ≡ length words.old) }
    ensures { (o : ℕ) (N : Netlist) → GivenJob job.entry (length words.old) o N
        → (told_of result.leak ≡ listed (length job.entry.codes.list.now) (leak_of N job.entry.codes.list.now))
        × (bad_of result.pair ≡ first_bad (clean_pair N job.entry.codes.list.now) job.entry.items.pairs.now) }
{
    let worst = lowest(job, paints, marks, words, base, bases);
    let leak = if worst.wire < words.len() {
        tell(job, worst.wire, paints, words, base, bases)
    } else {
        None
    };
    WideFound {
        leak,
        pair: (worst.pair < job.items.pairs.len() / 2).then_some(worst.pair),
    }
}
