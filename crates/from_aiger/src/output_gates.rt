//! The gates of outputs, whose literals stand at the end of the table of results. `room` is a place and no length: the
//! gates of outputs go on both sides of it. `2 ^ 32` is the range of a wire's u32.
ghost use Rattle.std.specs.Prelude.{◌+◌, ◌^◌, ◌<◌, ◌≤◌, length, drop, is_some};
ghost use Rattle.netlist.specs.Table.{tables};
ghost use Rattle.from_aiger.specs.OutAnswers.{Low, HaveWires, OutputsPut, OutputsIs};

use crate::and_gates::out_gate;
use crate::kept::are_readable;

// The gates of the literals from `room` on, after n inputs and `count` gates. Each gate is put before the literals that
// are left, or in the place of its own, so the loop goes by places.
fn put_outputs(
    table: &[u32],
    operands: &mut [u64],
    results: &mut [u64],
    room: usize,
    inputs: u32,
    count: usize,
)
    requires { (count ≤ room) × (room ≤ length results.old) ×
        (inputs + count + length (drop room results.old) + 1 < 2 ^ 32)
        × Low (drop room results.old) × HaveWires table.now (drop room results.old) }
    ensures { OutputsPut table.now (tables operands.old results.old)
        (tables operands.new results.new) inputs count (drop room results.old) }
{
    for i in 0..results.len() - room {
        let at = room + i;
        let x = results[at] as u32;
        out_gate(
            table,
            operands,
            &mut results[..at + 1],
            x,
            inputs,
            count + i,
        );
    }
}

/// Where the literals from `room` on can be read, their gates are put after n inputs and `count` gates, which stand
/// before them, if the table has room for all.
pub fn outputs(
    table: &[u32],
    operands: &mut [u64],
    results: &mut [u64],
    room: usize,
    inputs: u32,
    count: usize,
) -> Option<()>
    requires { (room ≤ length results.old) × (inputs + count + length (drop room results.old) + 1 < 2 ^ 32)
        × Low (drop room results.old) }
    ensures { OutputsIs table.now operands.old results.old
        (tables operands.new results.new) room inputs count (is_some result) }
{
    if !are_readable(table, &results[room..]) {
        return None;
    }
    if count <= room {
        put_outputs(table, operands, results, room, inputs, count);
    }
    Some(())
}
