//! Gate lines. Where the buffer has room for the longest, a line is stored by words; near its end it is
//! written byte by byte as far as it fits; after it only its length is added. `d` is the table of words.
ghost use Rattle.std.specs.Prelude.{◌≤◌, [], ◌∷◌};
ghost use Rattle.std.specs.Int.{to_le_bytes, w32};
ghost use Rattle.netlist.specs.declared.Gate.TheVariants.{Xor, And, Inv, Eqw, Eq};
ghost use Rattle.netlist.specs.Table.{gate_in};
ghost use Rattle.writer.specs.Wrote.{Wrote};
ghost use Rattle.writer.specs.Parts.{line_of};
ghost use Rattle.writer.specs.WrittenGates.{WroteGates};

use crate::parts::LONGEST;
use crate::store;
use crate::word_table::Words;
use gates::Kind;

// The names of three letters, each with LF after it, as numbers: the first letter is the lowest byte.
const XOR: u32 = 0x0a524f58;

const AND: u32 = 0x0a444e41;

const INV: u32 = 0x0a564e49;

const EQW: u32 = 0x0a575145;

// The line of a gate of one of these names. The name is a const parameter, so that each is stored as a constant.
fn line<const N: usize, const NAME: u32>(
    words: Words,
    out: &mut [u8],
    at: usize,
    operands: [u32; N],
    wire: u32,
) -> usize
    requires few { N ≤ 2 }
    ensures { Wrote out.old at (line_of operands.entry wire (to_le_bytes w32 NAME)) out.new result }
{
    let name = NAME.to_le_bytes();
    if out.len() <= at {
        return crate::parts::beyond(at, operands, wire);
    }
    if out.len() - at < LONGEST {
        return crate::parts::near(out, at, operands, wire, name);
    }
    if !crate::parts::packable(words.entries.len(), operands, wire) {
        return crate::parts::spell(out, at, operands, wire, name);
    }
    let end = crate::parts::front(words, out, at, operands, wire);
    store(out, end, name)
}

/// The line of an XOR.
pub fn xor(words: Words, out: &mut [u8], at: usize, first: u32, second: u32, wire: u32) -> usize
    ensures { WroteGates out.old at (Xor first second wire ∷ []) out.new result }
{
    line::<2, XOR>(words, out, at, [first, second], wire)
}

/// The line of an AND.
pub fn and(words: Words, out: &mut [u8], at: usize, first: u32, second: u32, wire: u32) -> usize
    ensures { WroteGates out.old at (And first second wire ∷ []) out.new result }
{
    line::<2, AND>(words, out, at, [first, second], wire)
}

/// The line of an INV.
pub fn inv(words: Words, out: &mut [u8], at: usize, first: u32, wire: u32) -> usize
    ensures { WroteGates out.old at (Inv first wire ∷ []) out.new result }
{
    line::<1, INV>(words, out, at, [first], wire)
}

/// The line of an EQW.
pub fn eqw(words: Words, out: &mut [u8], at: usize, first: u32, wire: u32) -> usize
    ensures { WroteGates out.old at (Eqw first wire ∷ []) out.new result }
{
    line::<1, EQW>(words, out, at, [first], wire)
}

/// The line of an EQ.
pub fn eq(out: &mut [u8], at: usize, value: u32, wire: u32) -> usize
    ensures { WroteGates out.old at (Eq value wire ∷ []) out.new result }
{
    let constant = crate::bytes(out, at, b"1 1 ");
    let result = crate::parts::spaced(out, constant, value);
    let space = crate::number(out, result, wire as usize);
    crate::bytes(out, space, b" EQ\n")
}

/// The line of the gate that two table entries hold.
pub fn entry(words: Words, out: &mut [u8], at: usize, operands: u64, results: u64) -> usize
    ensures { WroteGates out.old at (gate_in operands results ∷ []) out.new result }
{
    let g = gates::split(operands, results);
    let a = g.left as u32;
    let b = g.right as u32;
    let c = g.result as u32;
    match Kind::of(g.kind) {
        Kind::Xor => xor(words, out, at, a, b, c),
        Kind::And => and(words, out, at, a, b, c),
        Kind::Inv => inv(words, out, at, a, c),
        Kind::Eqw => eqw(words, out, at, a, c),
        Kind::Eq(v) => eq(out, at, v, c),
    }
}
