//! Colours of inputs: given to the members of sets, and compared. A paint is an input's code and, times four, its
//! colour; that of a number that is no input is 0.
ghost use Rattle.std.specs.Prelude.{◌≡◌, true, ℕ, ◌+◌, ◌*◌, ◌%◌, ◌≤◌, ◌<◌, length, get_or, set, take};
ghost use Rattle.leak_search.specs.Paint.{colour_of};
ghost use Rattle.check_wide.specs.Rule.{Different};
ghost use Rattle.check_wide.specs.PaintColours.{Upto, Kept, Seeded};

use crate::members::InputSet;
use gates::entries::entry;

/// The most colours, one for each of the members that a set can have.
pub const MOST: usize = 12;

// An input gets a colour, and keeps its code.
fn put(paints: &mut [u8], index: usize, colour: u8)
    requires { colour ≤ 12 }
    ensures { paints.new ≡ set paints.old index (get_or paints.old index 0 % 4 + 4 * colour) }
{
    gates::entries::put(paints, index, entry(paints, index) % 4 + 4 * colour);
}

// A paint's colour; 0 where it is none of the twelve.
fn colour(paint: u8) -> usize
    ensures { (result ≤ 12) × (0 < result → result ≡ colour_of paint) }
{
    let c = (paint / 4) as usize;
    if MOST < c { 0 } else { c }
}

// Whether the members of a set have different colours from 1 to 12.
fn different(members: InputSet, paints: &[u8]) -> bool
    ensures { result ≡ true → Different (take members.count members.items) paints.now }
{
    let mut seen = [false; 13];
    for item in &members.items[..members.count] {
        let c = colour(entry(paints, *item as usize));
        if c == 0 || seen[c] {
            return false;
        }
        seen[c] = true;
    }
    true
}

/// The members of a set take the colours 1, 2, 3 and so on.
pub fn seed(members: InputSet, paints: &mut [u8])
    ensures { Seeded (take members.count members.items) paints.old paints.new }
{
    for (a, item) in members.items[..members.count].iter().enumerate() {
        put(paints, *item as usize, a as u8 + 1);
    }
}

// How often the members of a set have each colour.
fn taken(members: &[u32], paints: &[u8]) -> [u8; 13] {
    let mut times = [0u8; 13];
    for item in members {
        let c = colour(entry(paints, *item as usize));
        times[c] = times[c].saturating_add(1);
    }
    times
}

// The first colour from c on that was not met.
fn free(times: [u8; 13], from: usize) -> Option<usize>
    ensures { (c : ℕ) → result ≡ Some c → c ≤ 12 }
{
    (from..13).find(|c| times[*c] == 0)
}

// An input without a colour gets the first from c on that is free. Says where to look for the next.
fn next(paints: &mut [u8], index: usize, times: [u8; 13], from: usize) -> usize
    requires { from ≤ 13 }
    ensures { (result ≤ 13) × Kept paints.old paints.new }
{
    if 4 <= entry(paints, index) {
        return from;
    }
    match free(times, from) {
        Some(c) => {
            put(paints, index, c as u8);
            c + 1
        }
        None => 13,
    }
}

// The members of a set that have no colour get the lowest that the others have not, unless two members have the same.
// Whether the set then has different colours is for `different` to say.
fn give(members: &[u32], paints: &mut [u8])
    ensures { Kept paints.old paints.new }
{
    let times = taken(members, paints);
    if times[1..].iter().any(|t| 1 < *t) {
        return;
    }
    let mut c = 1;
    for item in members {
        c = next(paints, *item as usize, times, c);
    }
}

/// Whether the members of a set have different colours from 1 to 12; where they have not, those without a colour get
/// one first.
pub fn fit(members: InputSet, paints: &mut [u8]) -> bool
    ensures { Kept paints.old paints.new
        × (result ≡ true → Different (take members.count members.items) paints.new) }
{
    if different(members, paints) {
        return true;
    }
    give(&members.items[..members.count], paints);
    different(members, paints)
}

/// The input codes become paints without colours.
pub fn lay(codes: &[u8], paints: &mut [u8])
    requires { length codes.now ≡ length paints.old }
    ensures { paints.new ≡ codes.now }
{
    gates::entries::copy(codes, paints);
}

/// The highest colour.
pub fn most(paints: &[u8]) -> usize
    requires { Upto 12 paints.now }
    ensures { (result ≤ 12) × Upto result paints.now }
{
    paints
        .iter()
        .map(|paint| (*paint / 4) as usize)
        .max()
        .unwrap_or(0)
}
