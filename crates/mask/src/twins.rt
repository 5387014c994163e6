//! The twins of the source wires: for each wire of a source netlist the wire that stands for it in the netlist that
//! Mask writes for the same input codes, and the code of its mask. Questions 1 to 9 with the small limits, 11 and 14.
ghost use Rattle.std.specs.Prelude.{◌≤◌, length};
ghost use Rattle.netlist.specs.declared.Sizes.TheVariants.{Whole};
ghost use Rattle.netlist.specs.Netlist.{Netlist, source_limits};
ghost use Rattle.reader.specs.Tables.{HoldsNetlist};
ghost use Rattle.mask.specs.TwinsPromise.{twins_outcome, TwinsAnswers, call, Promise};

use netlist::{Answer, Refusal, Sizes};
use reader::judged::read;
use reader::netlist_tables::NetlistTables;

// Questions 11 and 14, and the twins at the fronts of the buffers, of a netlist that was read: the pass over the gates
// works in the buffers, and needs no table of its own.
fn deliver(wires: &mut [u32], out_codes: &mut [u8], netlist: NetlistTables, codes: &[u8]) -> Answer
    requires { (netlist.header.wires ≤ (source_limits Whole).wires) × (netlist.gates.count ≤ netlist.header.wires) }
    ensures { (N : Netlist) → HoldsNetlist netlist.entry N
        → TwinsAnswers (twins_outcome codes.now (length wires.old) (length out_codes.old) N)
        wires.old wires.new out_codes.old out_codes.new result }
{
    if !questions::valid_codes(codes, netlist.header.input_bits as usize) {
        return Err(Refusal::Inputs);
    }
    let all = netlist.header.wires as usize;
    if wires.len() < all {
        return Err(Refusal::Room);
    }
    if out_codes.len() < all {
        return Err(Refusal::Room);
    }
    mask_rule::place::place_twins(
        netlist.gates,
        codes,
        &mut wires[..all],
        &mut out_codes[..all],
    );
    Ok(all)
}

// The answer, with tables that are still to be cleared. None is lent but the reader's own.
fn answer(
    text: &[u8],
    codes: &[u8],
    wires: &mut [u32],
    out_codes: &mut [u8],
    operands: &mut [u64],
    results: &mut [u64],
    marks: &mut [u8],
    sizes: Sizes,
) -> Answer
    ensures { TwinsAnswers (call sizes text.now codes.now wires.old out_codes.old
        operands.old results.old marks.old) wires.old wires.new out_codes.old
        out_codes.new result }
{
    let mut widths = [0u32; 17];
    let netlist = read(
        text,
        &mut widths,
        operands,
        results,
        marks,
        &[],
        sizes.source_limits(),
    )?;
    deliver(wires, out_codes, netlist, codes)
}

/// The masked wire of each source wire at the front of `wires`, and its code at the front of `out_codes`. The tables,
/// of any content, are zero on return.
pub fn twins(
    text: &[u8],
    codes: &[u8],
    wires: &mut [u32],
    out_codes: &mut [u8],
    operands: &mut [u64],
    results: &mut [u64],
    marks: &mut [u8],
    sizes: Sizes,
) -> Answer
    ensures { Promise sizes text.now codes.now wires.old wires.new out_codes.old
        out_codes.new operands.old operands.new results.old results.new
        marks.old marks.new result }
{
    let r = answer(
        text, codes, wires, out_codes, operands, results, marks, sizes,
    );
    operands.fill(0);
    results.fill(0);
    marks.fill(0);
    r
}
