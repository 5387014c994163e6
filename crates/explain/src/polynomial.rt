//! The polynomial of a wire.
ghost use Rattle.std.specs.Prelude.{◌≡◌, ℕ, ◌+◌, ◌^◌, ◌<◌, ◌≤◌, length};
ghost use Rattle.netlist.specs.Netlist.{Netlist};
ghost use Rattle.netlist.specs.Services.{Answers};
ghost use Rattle.masking.specs.Calls.{max_checked};
ghost use Rattle.gates.specs.Gates.{WiredGates, HoldsGates};
ghost use Rattle.reader.specs.Tables.{HoldsNetlist};
ghost use Rattle.explain.specs.Wire.{variables, polynomial};
ghost use Rattle.explain.specs.PolynomialPromise.{polynomial_outcome, call, Promise};

use crate::{transform, truth};
use gates::Gates;
use netlist::{Answer, Refusal, Sizes};
use questions::codes::Codes;
use reader::judged::read;
use reader::netlist_tables::NetlistTables;

// The coefficients, which `out` has a place each for.
fn of_wire(gates: Gates, codes: Codes, wire: usize, words: &mut [u64], out: &mut [u8])
    requires wired { WiredGates gates (length words.old) × (wire < length words.old) }
    requires lengths { (length codes.list.now ≤ max_checked) × (length codes.list.now + 2 ≤ length words.old)
        × (length out.old ≡ 2 ^ variables codes.list.now) }
    ensures { (n o : ℕ) (N : Netlist) → HoldsGates gates.entry (length words.old) n o N
        → out.new ≡ polynomial N codes.entry.list.now wire }
{
    truth::bits(gates, codes, wire, true, words, out);
    transform::transform(out, codes.list.len() + 2);
}

// Questions 10 to 12, 21 and 14 and the coefficients, of a netlist that was read.
fn judge(
    netlist: NetlistTables,
    codes: &[u8],
    wire: usize,
    out: &mut [u8],
    words: &mut [u64],
) -> Answer
    requires { netlist.header.wires ≤ length words.old }
    ensures { (N : Netlist) → HoldsNetlist netlist.entry N
        → Answers (polynomial_outcome codes.now wire (length out.old) N) out.old out.new result }
{
    let admitted = causes::asked::ask(netlist, codes)?;
    let wires = netlist.header.wires as usize;
    if wires <= wire {
        return Err(Refusal::Pairs);
    }
    let size = truth::power(codes.len() + 2);
    if out.len() < size {
        return Err(Refusal::Room);
    }
    of_wire(
        netlist.gates,
        admitted,
        wire,
        &mut words[..wires],
        &mut out[..size],
    );
    Ok(size)
}

// The answer, with tables that are still to be cleared.
fn answer(
    text: &[u8],
    codes: &[u8],
    wire: usize,
    out: &mut [u8],
    operands: &mut [u64],
    results: &mut [u64],
    marks: &mut [u8],
    words: &mut [u64],
    sizes: Sizes,
) -> Answer
    ensures { Answers (call sizes text.now codes.now wire out.old operands.old results.old marks.old words.old)
        out.old out.new result }
{
    let mut widths = [0u32; 17];
    let netlist = read(
        text,
        &mut widths,
        operands,
        results,
        marks,
        &[words.len()],
        sizes.masked_limits(),
    )?;
    judge(netlist, codes, wire, out, words)
}

/// The polynomial of a wire of the netlist in `text` under the input codes, at the front of `out`: entry m is the
/// coefficient, 0 or 1, of the product of the variables whose bits are one in m, where bits 0 and 1 are m0 and m1 and
/// bit i + 2 is input bit i, which comes in XOR its mask. The tables, of any content, are zero on return
/// (docs/RULES.md, Leaks).
pub fn polynomial(
    text: &[u8],
    codes: &[u8],
    wire: usize,
    out: &mut [u8],
    operands: &mut [u64],
    results: &mut [u64],
    marks: &mut [u8],
    words: &mut [u64],
    sizes: Sizes,
) -> Answer
    ensures { Promise sizes text.now codes.now wire out.old out.new operands.old operands.new
        results.old results.new marks.old marks.new words.old words.new result }
{
    let r = answer(
        text, codes, wire, out, operands, results, marks, words, sizes,
    );
    operands.fill(0);
    results.fill(0);
    marks.fill(0);
    words.fill(0);
    r
}
