//! The parts of gate lines of one or two operands. Where the buffer has room for the longest line they are stored
//! straight, by words or digit by digit; near its end a line is written byte by byte as far as it fits; after it only
//! the line's length is added.
ghost use Rattle.std.specs.Prelude.{ℕ, ◌+◌, ◌*◌, ◌≤◌, ◌<◌, ◌≡◌, true, length};
ghost use Rattle.netlist.specs.Number.{decimal};
ghost use Rattle.writer.specs.Wrote.{Wrote, cap};
ghost use Rattle.writer.specs.Packed.{Worded};
ghost use Rattle.writer.specs.Spilt.{Spilt};
ghost use Rattle.writer.specs.Parts.{longest, parted, head_of, front_of, line_of, Packable};

use crate::wire::wire;
use crate::word_table::Words;
use crate::{digits, store};

/// The bytes of the longest line: `longest`.
pub const LONGEST: usize = 41;

// The entries of a whole table of words.
const ENTRIES: usize = 2000;

// The least result whose word ends within its line.
const LEAST: u32 = 100;

// Below this, each number has a word in a table of so many entries.
fn reach(entries: usize) -> u32
    ensures { (n : ℕ) → n < result → Worded entries n }
{
    match entries {
        ENTRIES => 1000000,
        0..=1000 => entries as u32,
        _ => 0,
    }
}

/// Whether a line may be written by words: the table has the word of each wire, and the word of the result ends within
/// the line.
#[inline(always)]
pub fn packable<const N: usize>(entries: usize, operands: [u32; N], wire: u32) -> bool
    ensures { result ≡ true → Packable entries operands.entry wire }
{
    let end = reach(entries);
    LEAST <= wire && wire < end && operands.iter().all(|a| *a < end)
}

// How many operands and results a line has.
fn head(operands: usize) -> [u8; 4]
    requires { operands ≤ 2 }
    ensures { result ≡ head_of operands }
{
    [b'0' + operands as u8, b' ', b'1', b' ']
}

/// What a line has before the gate's name, by words.
#[inline(always)]
pub fn front<const N: usize>(
    word_table: Words,
    out: &mut [u8],
    at: usize,
    operands: [u32; N],
    result_wire: u32,
) -> usize
    requires few { N ≤ 2 }
    requires words { Packable (length word_table.entries.now) operands result_wire × (at + longest ≤ length out.old) }
    ensures { Spilt (11 + 7 * N) 4 out.old at (front_of operands.entry result_wire) out.new result }
{
    let mut next = store(out, at, head(N));
    for a in operands.iter() {
        next = wire(word_table, out, next, *a);
    }
    wire(word_table, out, next, result_wire)
}

/// A number and the space after it, as far as they fit.
pub fn spaced(out: &mut [u8], at: usize, wire: u32) -> usize
    ensures { Wrote out.old at (parted (decimal wire)) out.new result }
{
    let space = crate::number(out, at, wire as usize);
    crate::put(out, space, b' ')
}

/// A line near the buffer's end, as far as it fits. Its name has LF after it, here and below.
pub fn near<const N: usize>(
    out: &mut [u8],
    at: usize,
    operands: [u32; N],
    wire: u32,
    name: [u8; 4],
) -> usize
    requires { N ≤ 2 }
    ensures { Wrote out.old at (line_of operands.entry wire name) out.new result }
{
    let mut next = crate::bytes(out, at, &head(N));
    for a in operands.iter() {
        next = spaced(out, next, *a);
    }
    let last = spaced(out, next, wire);
    crate::bytes(out, last, &name)
}

// A number of at most two digits and the space after it.
fn low(out: &mut [u8], at: usize, number: u32) -> usize
    requires { (number < 100) × (at + 3 ≤ length out.old) }
    ensures { Wrote out.old at (parted (decimal number)) out.new result × (result ≤ at + 3) }
{
    if number < 10 {
        return store(out, at, [(48 + number) as u8, b' ']);
    }
    store(
        out,
        at,
        [(48 + number / 10) as u8, (48 + number % 10) as u8, b' '],
    )
}

/// A line that is written without words, where the longest line fits.
pub fn spell<const N: usize>(
    out: &mut [u8],
    at: usize,
    operands: [u32; N],
    wire: u32,
    name: [u8; 4],
) -> usize
    requires few { N ≤ 2 }
    requires room { at + longest ≤ length out.old }
    ensures { Wrote out.old at (line_of operands.entry wire name) out.new result }
{
    if 100 <= wire || operands.iter().any(|a| 100 <= *a) {
        return near(out, at, operands, wire, name);
    }
    let mut next = store(out, at, head(N));
    for a in operands.iter() {
        next = low(out, next, *a);
    }
    let last = low(out, next, wire);
    store(out, last, name)
}

/// The place after a line that starts after the buffer's end. Nine bytes stand in each: the head, the space after the
/// result, and the name.
pub fn beyond<const N: usize>(at: usize, operands: [u32; N], wire: u32) -> usize
    requires { N ≤ 2 }
    ensures { result ≡ cap (at + (4 + length (front_of operands.entry wire))) }
{
    let mut length = 9 + digits::count(wire);
    for a in operands.iter() {
        length += 1 + digits::count(*a);
    }
    crate::moved(at, length)
}
