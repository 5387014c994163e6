//! How many choices share their first places: the ways of all places after, multiplied. The largest number stands for
//! itself and all above.
ghost use Rattle.std.specs.Prelude.{◌+◌, ◌≤◌, length};
ghost use Rattle.fewest.specs.Advance.{ways_at};
ghost use Rattle.fewest.specs.Span.{Spanned};

use crate::next::ways;

/// For each place how many choices share the places up to it. By number, as in `next`: a place is an input's or a
/// gate's.
pub fn spans(codes: &[u8], results: &[u64], spans: &mut [u64])
    requires { length codes.now + length results.now ≤ length spans.old }
    ensures { Spanned (ways_at codes.now results.now) (length codes.now + length results.now) spans.old
        spans.new }
{
    let mut span: u64 = 1;
    for p in (0..codes.len() + results.len()).rev() {
        spans[p] = span;
        span = span.saturating_mul(u64::from(ways(codes, results, p)));
    }
}
