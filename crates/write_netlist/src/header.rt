//! Writes a netlist's header into a lent buffer, from a place on, in either dialect. Each function stores only where
//! the buffer reaches and answers the next place in any case.
ghost use Rattle.std.specs.Prelude.{[], ◌∷◌, ◌≡◌, length};
ghost use Rattle.netlist.specs.Write.{line, decimals};
ghost use Rattle.writer.specs.Wrote.{Wrote};
ghost use Rattle.write_netlist.specs.Header.{spaced, header_text, old_header_text, header_text_in};

use dialect::Dialect;
use gates::entries::entry;

/// What a header says: how many gates and wires there are, and the widths of the input and of the output values.
#[derive(Clone, Copy)]
pub struct Shape<'a> {
    pub gates: usize,
    pub wires: usize,
    pub ins: &'a [u32],
    pub outs: &'a [u32],
}

// Line one: two numbers.
fn counts(out: &mut [u8], at: usize, gates: usize, wires: usize) -> usize
    ensures { Wrote out.old at (line (decimals (gates ∷ wires ∷ []))) out.new result }
{
    let space = writer::number(out, at, gates);
    let end = writer::spaced(out, space, wires);
    writer::put(out, end, b'\n')
}

// Each width with a space in front.
fn widths(out: &mut [u8], at: usize, ws: &[u32]) -> usize
    ensures { Wrote out.old at (spaced ws.now) out.new result }
{
    let mut next = at;
    for w in ws {
        next = writer::spaced(out, next, *w as usize);
    }
    next
}

// A line of numbers.
fn numbers(out: &mut [u8], at: usize, first: usize, others: &[u32]) -> usize
    ensures { Wrote out.old at (line (decimals (first ∷ others.now))) out.new result }
{
    let space = writer::number(out, at, first);
    let end = widths(out, space, others);
    writer::put(out, end, b'\n')
}

// Lines two and three: how many values, and the width of each.
fn values(out: &mut [u8], at: usize, ws: &[u32]) -> usize
    ensures { Wrote out.old at (line (decimals (length ws.now ∷ ws.now))) out.new result }
{
    numbers(out, at, ws.len(), ws)
}

/// The three lines and the blank line after them.
pub fn header(out: &mut [u8], at: usize, shape: Shape) -> usize
    ensures { let h = shape.entry in Wrote out.old at (header_text h.gates h.wires h.ins.now h.outs.now) out.new
        result }
{
    let second = counts(out, at, shape.gates, shape.wires);
    let third = values(out, second, shape.ins);
    let blank = values(out, third, shape.outs);
    writer::put(out, blank, b'\n')
}

/// The two lines of the older dialect, of at most two input values and one output value, and the blank line after them.
/// The width of a value that there is not is 0.
pub fn old_header(out: &mut [u8], at: usize, shape: Shape) -> usize
    ensures { let h = shape.entry in Wrote out.old at (old_header_text h.gates h.wires h.ins.now h.outs.now) out.new
        result }
{
    let second = counts(out, at, shape.gates, shape.wires);
    let others = [entry(shape.ins, 1), entry(shape.outs, 0)];
    let blank = numbers(out, second, entry(shape.ins, 0) as usize, &others);
    writer::put(out, blank, b'\n')
}

/// The header of a dialect.
pub fn header_in(out: &mut [u8], at: usize, shape: Shape, dialect: Dialect) -> usize
    ensures { let h = shape.entry in Wrote out.old at (header_text_in dialect h.gates h.wires h.ins.now h.outs.now)
        out.new
        result }
{
    match dialect {
        Dialect::Fashion => header(out, at, shape),
        Dialect::Old => old_header(out, at, shape),
    }
}
