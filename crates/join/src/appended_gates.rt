//! The gates of a second netlist put after those of a first, on their joined wires.
ghost use Rattle.std.specs.Prelude.{◌≡◌, ◌+◌, ◌*◌, ◌/◌, ◌%◌, ◌≤◌, ◌<◌, length};
ghost use Rattle.netlist.specs.Table.{tables, half, Wired};
ghost use Rattle.gates.specs.Gates.{tables_of, WiredGates};
ghost use Rattle.join.specs.Appended.{goes_to, Appended};

use crate::seam::SeamNumbers;
use gates::halves::{pack, unpack};
use gates::{Entry, Gates, put};

// The joined wire of wire w of the second.
fn wire(seam: SeamNumbers, wire: u32) -> u32
    requires { wire < seam.second }
    ensures { result ≡ goes_to seam wire }
{
    let pair = seam.inner - 2;
    if wire < pair {
        return seam.wires - seam.outs + wire;
    }
    if wire < seam.inner {
        return seam.ins - 2 + (wire - pair);
    }
    seam.wires + (wire - seam.inner)
}

// The entry of two operands.
fn operands_entry(seam: SeamNumbers, entry: u64) -> u64
    requires { (entry % half < seam.second) × (entry / half < seam.second) }
    ensures { result ≡ goes_to seam (entry % half) + goes_to seam (entry / half) * half }
{
    let (a, b) = unpack(entry);
    pack(wire(seam, a), wire(seam, b))
}

// The entry of a result and its kind.
fn result_entry(seam: SeamNumbers, entry: u64) -> u64
    requires { entry % half < seam.second }
    ensures { result ≡ goes_to seam (entry % half) + entry / half * half }
{
    let (c, kind) = unpack(entry);
    pack(wire(seam, c), kind)
}

/// Puts the gates of a second netlist after the first `count` gates of two tables. EQ has no case of its own: the
/// operands of its entry are never read.
pub fn append(
    operands: &mut [u64],
    results: &mut [u64],
    count: usize,
    second: Gates,
    seam: SeamNumbers,
)
    requires wired { Wired (tables operands.old results.old) seam.wires count × WiredGates second seam.second }
    requires second_in_bounds { (count + second.count ≤ length operands.old)
        × (count + second.count ≤ length results.old) }
    ensures { Appended seam (tables operands.old results.old) count (tables_of second.entry) second.entry.count
        (tables operands.new results.new) }
{
    for i in 0..second.count {
        let e = Entry {
            operands: operands_entry(seam, second.operands[i]),
            results: result_entry(seam, second.results[i]),
        };
        put(operands, results, count + i, e);
    }
}
