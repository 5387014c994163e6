//! A set of inputs: in an array of twelve, and in one entry of each of four tables. An entry holds three members of
//! twenty bits; the first entry holds above its three how many there are.
ghost use Rattle.std.specs.Prelude.{◌≡◌, true, ℕ, ◌≤◌, ◌<◌, length, get_or, take, List, []};
ghost use Rattle.check_wide.specs.Sets.{members_end};
ghost use Rattle.check_wide.specs.Packed.{list_in, count_in, sets, set_at, size_at, start_entry, start_set, Small};
ghost use Rattle.check_wide.specs.Packed.{Holding, Put};
ghost use Rattle.check_wide.specs.WireSets.{sets_of};

use crate::wire_sets::WireSets;

/// A list of inputs: the first `count` items of an array, since there is no heap.
#[derive(Clone, Copy)]
pub struct Members {
    pub items: [u32; 12],
    pub count: usize,
}

/// The input bits that are one in a leak's setting: the first `count` items of an array, at most twelve.
#[derive(Clone, Copy)]
pub struct Ones {
    pub items: [u32; 12],
    pub count: usize,
    ghost few: { count ≤ 12 },
    ghost long: { length items ≡ 12 },
}

/// Members as a set holds them: at most twelve, and each fits in twenty bits.
#[derive(Clone, Copy)]
pub struct InputSet {
    pub items: [u32; 12],
    pub count: usize,
    ghost few: { count ≤ 12 },
    ghost long: { length items ≡ 12 },
    ghost small: { Small items },
}

// The entries of a set.
#[derive(Clone, Copy)]
struct Entries {
    a: u64,
    b: u64,
    c: u64,
    d: u64,
}

// 2^20, 2^40 and 2^60: where the second member, the third and the count begin.
const SECOND: u64 = 1048576;

const THIRD: u64 = 1099511627776;

const COUNT: u64 = 1152921504606846976;

// The set of four entries.
fn unpack(entries: Entries) -> Members
    ensures { (take result.count result.items ≡ list_in entries.a entries.b entries.c entries.d)
        × (result.count ≡ count_in entries.a)
        × (length result.items ≡ 12) × Small result.items }
{
    let items = [
        (entries.a % SECOND) as u32,
        (entries.a / SECOND % SECOND) as u32,
        (entries.a / THIRD % SECOND) as u32,
        (entries.b % SECOND) as u32,
        (entries.b / SECOND % SECOND) as u32,
        (entries.b / THIRD % SECOND) as u32,
        (entries.c % SECOND) as u32,
        (entries.c / SECOND % SECOND) as u32,
        (entries.c / THIRD % SECOND) as u32,
        (entries.d % SECOND) as u32,
        (entries.d / SECOND % SECOND) as u32,
        (entries.d / THIRD % SECOND) as u32,
    ];
    Members {
        items,
        count: (entries.a / COUNT) as usize,
    }
}

// Three members as an entry.
fn three(first: u32, second: u32, third: u32) -> u64
    requires { (first < members_end) × (second < members_end) × (third < members_end) }
    ensures { Holding first second third 0 result }
{
    first as u64 + second as u64 * SECOND + third as u64 * THIRD
}

// The entries of a set.
fn pack(members: InputSet) -> Entries
    ensures { (list_in result.a result.b result.c result.d ≡ take members.count members.items)
        × (count_in result.a ≡ members.count) }
{
    let items = members.items;
    Entries {
        a: three(items[0], items[1], items[2]) + members.count as u64 * COUNT,
        b: three(items[3], items[4], items[5]),
        c: three(items[6], items[7], items[8]),
        d: three(items[9], items[10], items[11]),
    }
}

/// The set of wire w, in tables of any content: four tables and no `WireSets`, which holds that no set has more than
/// twelve members.
pub fn get(set0: &[u64], set1: &[u64], set2: &[u64], set3: &[u64], wire: usize) -> Members
    requires { (wire < length set0.now) × (wire < length set1.now) × (wire < length set2.now)
        × (wire < length set3.now) }
    ensures { let S = sets set0.now set1.now set2.now set3.now in
        (take result.count result.items ≡ set_at S wire) × (result.count ≡ size_at S wire)
        × (length result.items ≡ 12) × Small result.items }
{
    unpack(Entries {
        a: set0[wire],
        b: set1[wire],
        c: set2[wire],
        d: set3[wire],
    })
}

impl<'a> WireSets<'a> {
    /// The set of wire w.
    pub fn at(self, wire: usize) -> InputSet
        requires { wire < length self.set0.now }
        ensures { (take result.count result.items ≡ set_at (sets_of self.entry) wire)
            × (result.count ≡ size_at (sets_of self.entry) wire) }
    {
        let Members { items, count } = get(self.set0, self.set1, self.set2, self.set3, wire);
        InputSet { items, count }
    }
}

/// A set becomes that of wire w.
pub fn put(
    set0: &mut [u64],
    set1: &mut [u64],
    set2: &mut [u64],
    set3: &mut [u64],
    wire: usize,
    members: InputSet,
)
    requires { (wire < length set0.old) × (wire < length set1.old) × (wire < length set2.old)
        × (wire < length set3.old) }
    ensures { Put (sets set0.old set1.old set2.old set3.old)
        (sets set0.new set1.new set2.new set3.new) wire (take members.count members.items) }
{
    let e = pack(members);
    set0[wire] = e.a;
    set1[wire] = e.b;
    set2[wire] = e.c;
    set3[wire] = e.d;
}

/// The set of wire `from` becomes that of wire `to` too.
pub fn copy(
    set0: &mut [u64],
    set1: &mut [u64],
    set2: &mut [u64],
    set3: &mut [u64],
    from: usize,
    to: usize,
)
    requires { (from < length set0.old) × (from < length set1.old) × (from < length set2.old) × (from < length set3.old)
        × (to < length set0.old) × (to < length set1.old) × (to < length set2.old) × (to < length set3.old)
        × (size_at (sets set0.old set1.old set2.old set3.old) from ≤ 12) }
    ensures { let S = sets set0.old set1.old set2.old set3.old in
        Put S (sets set0.new set1.new set2.new set3.new) to (set_at S from) }
{
    set0[to] = set0[from];
    set1[to] = set1[from];
    set2[to] = set2[from];
    set3[to] = set3[from];
}

/// Whether the entries of wire w say that no input reaches it.
pub fn empty(set0: &[u64], wire: usize) -> bool
    requires { wire < length set0.now }
    ensures { result ≡ true → (b c d : List ℕ) → set_at (sets set0.now b c d) wire ≡ [] }
{
    set0[wire] < COUNT
}

/// Whether the entries of two wires are the same, in tables of any content, as for `get`.
pub fn same(
    set0: &[u64],
    set1: &[u64],
    set2: &[u64],
    set3: &[u64],
    first: usize,
    second: usize,
) -> bool
    requires { (first < length set0.now) × (first < length set1.now) × (first < length set2.now)
        × (first < length set3.now)
        × (second < length set0.now) × (second < length set1.now) × (second < length set2.now)
        × (second < length set3.now) }
    ensures { let S = sets set0.now set1.now set2.now set3.now in
        result ≡ true → set_at S first ≡ set_at S second }
{
    set0[first] == set0[second]
        && set1[first] == set1[second]
        && set2[first] == set2[second]
        && set3[first] == set3[second]
}

/// Wire w is reached by no input: the first entry alone tells.
pub fn none(set0: &mut [u64], wire: usize)
    requires { wire < length set0.old }
    ensures { (b c d : List ℕ) → Put (sets set0.old b c d) (sets set0.new b c d) wire [] }
{
    set0[wire] = 0;
}

// The first entry of wire w before the first gate line: one of the first n wires is reached by itself, the others by
// none.
fn start_entry(wire: usize, inputs: usize) -> u64
    requires { inputs ≤ members_end }
    ensures { result ≡ start_entry inputs wire }
{
    if wire < inputs {
        wire as u64 + COUNT
    } else {
        0
    }
}

/// The sets before the first gate line: each of the first n wires is reached by itself, and the others by none.
pub fn start(set0: &mut [u64], inputs: usize)
    requires { inputs ≤ members_end }
    ensures { ((b c d : List ℕ) (w : ℕ) → set_at (sets set0.new b c d) w ≡ start_set inputs (length set0.old) w)
        × ((w : ℕ) → count_in (get_or set0.new w 0) ≤ 12) }
{
    for (w, entry) in set0.iter_mut().enumerate() {
        *entry = start_entry(w, inputs);
    }
}
