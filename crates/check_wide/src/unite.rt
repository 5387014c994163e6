//! Rising lists of input numbers, put together.
ghost use Rattle.std.specs.Prelude.{take};
ghost use Rattle.check_wide.specs.Packed.{Small};
ghost use Rattle.check_wide.specs.Together.{Begins, Unites, Together};

use crate::members::InputSet;

/// The lowest number of two lists, and what is left of them.
#[derive(Clone, Copy)]
pub struct Head<'x, 'y> {
    pub value: u32,
    pub first: &'x [u32],
    pub second: &'y [u32],
}

// The lowest number of two lists, unless both are empty.
fn next<'x, 'y>(first: &'x [u32], second: &'y [u32]) -> Option<Head<'x, 'y>>
    ensures { Begins first.now second.now result }
{
    match (first, second) {
        ([], []) => None,
        ([p, left @ ..], []) => Some(Head {
            value: *p,
            first: left,
            second,
        }),
        ([], [q, left @ ..]) => Some(Head {
            value: *q,
            first,
            second: left,
        }),
        ([p, xs @ ..], [q, ys @ ..]) => Some(Head {
            value: u32::min(*p, *q),
            first: if *q < *p { first } else { xs },
            second: if *p < *q { second } else { ys },
        }),
    }
}

/// How many numbers the two lists have together, which stand at the front of `out`; none where it cannot hold them.
pub fn unite(first: &[u32], second: &[u32], out: &mut [u32]) -> Option<usize>
    ensures { Unites first.now second.now out.new result
        × (Small first.now → Small second.now → Small out.old → Small out.new) }
{
    let mut first = first;
    let mut second = second;
    let mut k = 0;
    while let Some(h) = next(first, second) {
        if k == out.len() {
            return None;
        }
        out[k] = h.value;
        first = h.first;
        second = h.second;
        k += 1;
    }
    Some(k)
}

/// The members of two sets; none where they are more than twelve.
pub fn both(first: InputSet, second: InputSet) -> Option<InputSet>
    ensures { Together (take first.count first.items) (take second.count second.items) result }
{
    let mut items = [0u32; 12];
    let count = unite(
        &first.items[..first.count],
        &second.items[..second.count],
        &mut items,
    )?;
    Some(InputSet { items, count })
}
