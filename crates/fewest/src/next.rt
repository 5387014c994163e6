//! From one choice to the next: the last place that has a further way takes it, and the places after it take their
//! first.
ghost use Rattle.std.specs.Prelude.{◌≡◌, ◌+◌, ◌/◌, ◌≤◌, ◌<◌, eqb, length};
ghost use Rattle.netlist.specs.Table.{half};
ghost use Rattle.fewest.specs.Advance.{ways_at, following, Advanced};

use gates::Kind;
use gates::halves::unpack;

/// Whether the gate of an entry in the table of results is an AND.
pub fn is_and(results: u64) -> bool
    ensures { result ≡ eqb (results / half) 2 }
{
    let (_, kind) = unpack(results);
    kind == Kind::And.number()
}

/// How many ways a place has: an input by its code, a gate by its kind.
pub fn ways(codes: &[u8], results: &[u64], place: usize) -> u8
    requires { place < length codes.now + length results.now }
    ensures { result ≡ ways_at codes.now results.now place }
{
    let n = codes.len();
    if place < n {
        if codes[place] == 4 {
            return 3;
        }
        return 1;
    }
    if is_and(results[place - n]) {
        return 2;
    }
    1
}

/// The next choice of the inputs and of the gates with these results in the table of ways, where the places after take
/// their first way: the place that moved, if there is one.
pub fn next(codes: &[u8], results: &[u64], way: &mut [u8]) -> Option<usize>
    requires { length codes.now + length results.now ≤ length way.old }
    ensures { Advanced (ways_at codes.now results.now) (length codes.now + length results.now) way.old
        way.new (following result) }
{
    for p in (0..codes.len() + results.len()).rev() {
        let d = way[p];
        if d < ways(codes, results, p) - 1 {
            way[p] = d + 1;
            return Some(p);
        }
        way[p] = 0;
    }
    None
}
