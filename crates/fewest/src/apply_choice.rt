//! A choice put to use: the ANDs that it swaps are swapped in the gate tables, and its input codes are filled in.
ghost use Rattle.std.specs.Prelude.{◌+◌, ◌≤◌, length};
ghost use Rattle.fewest.specs.Apply.{SwapsEntry, Swapped, Chosen};

use crate::inputs;
use crate::next::is_and;
use gates::halves::{pack, unpack};

// The entry of a gate's operands, exchanged where it is an AND whose way is the swapped one.
fn swapped(way: u8, operands: u64, results: u64) -> u64
    ensures { SwapsEntry way operands results result }
{
    if way == 1 && is_and(results) {
        let (a, b) = unpack(operands);
        return pack(b, a);
    }
    operands
}

/// Exchanges the operands of the ANDs among the gates with these results that their ways take swapped.
pub fn swap(operands: &mut [u64], results: &[u64], ways: &[u8])
    requires { (length results.now ≤ length operands.old) × (length results.now ≤ length ways.now) }
    ensures { Swapped results.now (length results.now) ways.now operands.old operands.new }
{
    for (i, result) in results.iter().enumerate() {
        operands[i] = swapped(ways[i], operands[i], *result);
    }
}

/// The codes of the inputs, at the front of `out`.
pub fn codes(codes: &[u8], way: &[u8], out: &mut [u8])
    requires { (length codes.now ≤ length way.now) × (length codes.now ≤ length out.old) }
    ensures { Chosen codes.now way.now (length codes.now) out.old out.new }
{
    inputs::fill(codes, way, out, inputs::masked);
}
