//! Which wires of a netlist leak, and which of these are causes: wires that leak though no operand of their gate does.
//! Questions 1 to 12 with the limits of a masked netlist, and 14.
#![tactic(auto)]

pub mod asked;
pub mod causes;
pub mod levels;

ghost use Rattle.std.specs.Prelude.{◌≡◌, ℕ, ◌+◌, ◌≤◌, length};
ghost use Rattle.netlist.specs.Netlist.{Netlist};
ghost use Rattle.netlist.specs.Services.{Answers};
ghost use Rattle.gates.specs.Gates.{WiredGates, HoldsGates};
ghost use Rattle.masking.specs.Calls.{max_checked};
ghost use Rattle.reader.specs.Tables.{HoldsNetlist};
ghost use Rattle.causes.specs.Causes.{verdicts};
ghost use Rattle.causes.specs.Promise.{wires_outcome, call, Promise};

use gates::Gates;
use netlist::{Answer, Refusal, Sizes};
use questions::codes::Codes;
use reader::judged::read;
use reader::netlist_tables::NetlistTables;

// The verdicts on all wires, which `out` has a place each for.
fn verdicts(gates: Gates, codes: Codes, out: &mut [u8], words: &mut [u64], base: &mut [u64])
    requires wired { WiredGates gates (length words.old) }
    requires lengths { (length codes.list.now ≤ max_checked) × (length codes.list.now + 2 ≤ length words.old)
        × (length base.old ≡ length words.old) × (length out.old ≡ length words.old) }
    ensures { (n o : ℕ) (N : Netlist) → HoldsGates gates.entry (length words.old) n o N
        → out.new ≡ verdicts N codes.entry.list.now }
{
    levels::levels(gates, codes, words, base, out);
    causes::causes(gates, out);
}

// Questions 10 to 12 and 14 and the verdicts, of a netlist that was read.
fn judge(
    netlist: NetlistTables,
    codes: &[u8],
    out: &mut [u8],
    words: &mut [u64],
    base: &mut [u64],
) -> Answer
    requires { (netlist.header.wires ≤ length words.old) × (netlist.header.wires ≤ length base.old) }
    ensures { (N : Netlist) → HoldsNetlist netlist.entry N
        → Answers (wires_outcome codes.now (length out.old) N) out.old out.new result }
{
    let admitted = asked::ask(netlist, codes)?;
    let wires = netlist.header.wires as usize;
    if out.len() < wires {
        return Err(Refusal::Room);
    }
    verdicts(
        netlist.gates,
        admitted,
        &mut out[..wires],
        &mut words[..wires],
        &mut base[..wires],
    );
    Ok(wires)
}

// The answer, with tables that are still to be cleared.
fn answer(
    text: &[u8],
    codes: &[u8],
    out: &mut [u8],
    operands: &mut [u64],
    results: &mut [u64],
    marks: &mut [u8],
    words: &mut [u64],
    base: &mut [u64],
    sizes: Sizes,
) -> Answer
    ensures { Answers (call sizes text.now codes.now out.old operands.old results.old
        marks.old words.old base.old) out.old out.new result }
{
    let mut widths = [0u32; 17];
    let netlist = read(
        text,
        &mut widths,
        operands,
        results,
        marks,
        &[words.len(), base.len()],
        sizes.masked_limits(),
    )?;
    judge(netlist, codes, out, words, base)
}

/// A verdict on each wire of the netlist in `text` under the input codes, at the front of `out`: 0 it has equal counts,
/// 1 it leaks, 2 it leaks and no operand of its gate does. The tables, of any content, are zero on return
/// (docs/RULES.md, Leaks).
pub fn wires(
    text: &[u8],
    codes: &[u8],
    out: &mut [u8],
    operands: &mut [u64],
    results: &mut [u64],
    marks: &mut [u8],
    words: &mut [u64],
    base: &mut [u64],
    sizes: Sizes,
) -> Answer
    ensures { Promise sizes text.now codes.now out.old out.new operands.old operands.new
        results.old results.new marks.old marks.new words.old words.new
        base.old base.new result }
{
    let r = answer(
        text, codes, out, operands, results, marks, words, base, sizes,
    );
    operands.fill(0);
    results.fill(0);
    marks.fill(0);
    words.fill(0);
    base.fill(0);
    r
}
