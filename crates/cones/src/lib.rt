//! The cone of a wire: the wires that reach it through gate lines, with their distances. Questions 1 to 9 with the
//! limits of a masked netlist, 21 and 14.
#![tactic(auto)]

pub mod distances;

ghost use Rattle.std.specs.Prelude.{length};
ghost use Rattle.netlist.specs.Netlist.{Netlist};
ghost use Rattle.netlist.specs.Services.{Answers};
ghost use Rattle.reader.specs.Tables.{HoldsNetlist};
ghost use Rattle.cones.specs.Promise.{cone_outcome, call, Promise};

use netlist::{Answer, Refusal, Sizes};
use reader::judged::read;
use reader::netlist_tables::NetlistTables;

// Questions 21 and 14 and the distances, of a netlist that was read.
fn judge(netlist: NetlistTables, wire: usize, depth: u16, out: &mut [u32]) -> Answer
    ensures { (N : Netlist) → HoldsNetlist netlist.entry N
        → Answers (cone_outcome wire depth (length out.old) N) out.old out.new result }
{
    let wires = netlist.header.wires as usize;
    if wires <= wire {
        return Err(Refusal::Pairs);
    }
    if out.len() < wires {
        return Err(Refusal::Room);
    }
    distances::distances(netlist.gates, wire, depth, &mut out[..wires]);
    Ok(wires)
}

// The answer, with tables that are still to be cleared.
fn answer(
    text: &[u8],
    wire: usize,
    depth: u16,
    out: &mut [u32],
    operands: &mut [u64],
    results: &mut [u64],
    marks: &mut [u8],
    sizes: Sizes,
) -> Answer
    ensures { Answers (call sizes text.now wire depth out.old operands.old results.old marks.old) out.old out.new
        result }
{
    let mut widths = [0u32; 17];
    let netlist = read(
        text,
        &mut widths,
        operands,
        results,
        marks,
        &[],
        sizes.masked_limits(),
    )?;
    judge(netlist, wire, depth, out)
}

/// The cone of a wire of the netlist in `text`, at the front of `out`: for each wire, one more than its distance, which
/// is how many gates stand between, or 0 where it does not reach the wire within so many gates. The tables, of any
/// content, are zero on return (docs/RULES.md, Many inputs).
pub fn cone(
    text: &[u8],
    wire: usize,
    depth: u16,
    out: &mut [u32],
    operands: &mut [u64],
    results: &mut [u64],
    marks: &mut [u8],
    sizes: Sizes,
) -> Answer
    ensures { Promise sizes text.now wire depth out.old out.new operands.old operands.new
        results.old results.new marks.old marks.new result }
{
    let r = answer(text, wire, depth, out, operands, results, marks, sizes);
    operands.fill(0);
    results.fill(0);
    marks.fill(0);
    r
}
