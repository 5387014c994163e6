//! How many settings have each count on a wire, and a witness of a leak with as few ones as possible.
ghost use Rattle.std.specs.Prelude.{◌≡◌, ℕ, ◌+◌, ◌^◌, ◌<◌, ◌≤◌, length};
ghost use Rattle.netlist.specs.Netlist.{Netlist};
ghost use Rattle.netlist.specs.Services.{delivered, Answers};
ghost use Rattle.masking.specs.Calls.{max_checked};
ghost use Rattle.gates.specs.Gates.{WiredGates, HoldsGates};
ghost use Rattle.reader.specs.Tables.{HoldsNetlist};
ghost use Rattle.explain.specs.Wire.{variables};
ghost use Rattle.explain.specs.Counts.{counts};
ghost use Rattle.explain.specs.CountsPromise.{counts_outcome, call, Promise};

use crate::{tally, truth};
use gates::Gates;
use netlist::{Answer, Refusal, Sizes};
use questions::codes::Codes;
use reader::judged::read;
use reader::netlist_tables::NetlistTables;

// The numbers of a wire, by its bits in all settings and in their bases.
fn of_wire(
    gates: Gates,
    codes: Codes,
    wire: usize,
    out: &mut [u64],
    bits: &mut [u8],
    words: &mut [u64],
    bases: &mut [u8],
) -> Answer
    requires wired { WiredGates gates (length words.old) × (wire < length words.old) }
    requires lengths { (length codes.list.now ≤ max_checked) × (length codes.list.now + 2 ≤ length words.old)
        × (length bits.old ≡ 2 ^ variables codes.list.now) × (length bases.old ≡ 2 ^ variables codes.list.now) }
    ensures { (n o : ℕ) (N : Netlist) → HoldsGates gates.entry (length words.old) n o N
        → Answers (delivered (length out.old) (counts N codes.entry.list.now wire)) out.old out.new result }
{
    truth::bits(gates, codes, wire, true, words, bits);
    truth::bits(gates, codes, wire, false, words, bases);
    tally::tell(bases, bits, codes.list.len(), out)
}

// Questions 10 to 12, 21 and 14 and the numbers, of a netlist that was read.
fn judge(
    netlist: NetlistTables,
    codes: &[u8],
    wire: usize,
    out: &mut [u64],
    bits: &mut [u8],
    words: &mut [u64],
    bases: &mut [u8],
) -> Answer
    requires { (netlist.header.wires ≤ length words.old) × (16384 ≤ length bits.old) × (16384 ≤ length bases.old) }
    ensures { (N : Netlist) → HoldsNetlist netlist.entry N
        → Answers (counts_outcome codes.now wire (length out.old) N) out.old out.new result }
{
    let admitted = causes::asked::ask(netlist, codes)?;
    let wires = netlist.header.wires as usize;
    if wires <= wire {
        return Err(Refusal::Pairs);
    }
    let size = truth::power(codes.len() + 2);
    of_wire(
        netlist.gates,
        admitted,
        wire,
        out,
        &mut bits[..size],
        &mut words[..wires],
        &mut bases[..size],
    )
}

// The answer, with tables that are still to be cleared.
fn answer(
    text: &[u8],
    codes: &[u8],
    wire: usize,
    out: &mut [u64],
    operands: &mut [u64],
    results: &mut [u64],
    bits: &mut [u8],
    words: &mut [u64],
    bases: &mut [u8],
    sizes: Sizes,
) -> Answer
    ensures { Answers (call sizes text.now codes.now wire out.old operands.old results.old bits.old words.old
        bases.old) out.old out.new result }
{
    let mut widths = [0u32; 17];
    let netlist = read(
        text,
        &mut widths,
        operands,
        results,
        bits,
        &[words.len(), bases.len()],
        sizes.masked_limits(),
    )?;
    judge(netlist, codes, wire, out, bits, words, bases)
}

/// How many settings have the counts 0 to 4 on a wire of the netlist in `text` under the input codes, at the front of
/// `out`: five numbers. Where the wire leaks three more follow: a setting whose count is not its base's with as few
/// ones as possible, the first of these; its base's count; its own. The tables, of any content, are zero on return
/// (docs/RULES.md, Leaks).
pub fn counts(
    text: &[u8],
    codes: &[u8],
    wire: usize,
    out: &mut [u64],
    operands: &mut [u64],
    results: &mut [u64],
    bits: &mut [u8],
    words: &mut [u64],
    bases: &mut [u8],
    sizes: Sizes,
) -> Answer
    ensures { Promise sizes text.now codes.now wire out.old out.new operands.old operands.new
        results.old results.new bits.old bits.new words.old words.new bases.old bases.new result }
{
    let r = answer(
        text, codes, wire, out, operands, results, bits, words, bases, sizes,
    );
    operands.fill(0);
    results.fill(0);
    bits.fill(0);
    words.fill(0);
    bases.fill(0);
    r
}
