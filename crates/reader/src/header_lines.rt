//! The header lines: question 4; and the head of a text.
ghost use Rattle.netlist.specs.Header.{numbers, values};
ghost use Rattle.text.specs.Line.{line_words};
ghost use Rattle.text.specs.Cursors.{left};
ghost use Rattle.reader.specs.HeaderAnswers.{positives, CountsIs, WidthsIs, HeaderIs};

use gates::entries::put;
use text::cursor::Cursor;

/// What the header says, besides the widths themselves. The sums of the widths fit 128 bits, and need not fit 64. Apart
/// from `Header`, whose law holds after question 5 alone.
#[derive(Clone, Copy)]
pub struct HeaderNumbers {
    /// the gate count
    pub gates: u32,
    /// the wire count
    pub wires: u32,
    /// how many input values, and their bits together
    pub input_values: usize,
    pub input_bits: u128,
    /// how many output values, and their bits together
    pub output_values: usize,
    pub output_bits: u128,
}

// Line one: gate count and wire count, two numbers alone, with the start of the next line.
pub(crate) fn counts_line(at: Cursor) -> Option<(u32, u32, Cursor)>
    ensures { CountsIs at.entry result }
{
    let Some((gates, at1)) = at.next_number() else {
        return None;
    };
    let Some((wires, at2)) = at1.next_number() else {
        return None;
    };
    let next = at2.line_end()?;
    Some((gates, wires, next))
}

// The numbers up to the line's end, each 1 or more: how many, their sum, and the start of the next line. Those past the
// table's end are read too. A `loop` and no `for`: it goes from a cursor to the one after each number, and how many
// there are is known at the end alone.
fn read_widths<'t>(at: Cursor<'t>, table: &mut [u32]) -> Option<(usize, u128, Cursor<'t>)>
    ensures { WidthsIs at.entry (positives (numbers (line_words (left at.entry))))
        table.new result }
{
    let mut here = at;
    let mut n: usize = 0;
    let mut sum: u128 = 0;
    loop {
        if let Some(next) = here.line_end() {
            return Some((n, sum, next));
        }
        let Some((width, on)) = here.next_number() else {
            return None;
        };
        if width == 0 {
            return None;
        }
        put(table, n, width);
        n += 1;
        sum += width as u128;
        here = on;
    }
}

// Lines two and three: how many values, then the width of each.
fn values_line<'t>(at: Cursor<'t>, table: &mut [u32]) -> Option<(usize, u128, Cursor<'t>)>
    ensures { WidthsIs at.entry (values (numbers (line_words (left at.entry))))
        table.new result }
{
    let Some((count, on)) = at.next_number() else {
        return None;
    };
    let (n, sum, next) = read_widths(on, table)?;
    if count == 0 {
        return None;
    }
    if count as usize != n {
        return None;
    }
    Some((n, sum, next))
}

/// Question 4: the header's numbers, with the place after its last line. The widths go into the tables, as many as they
/// have room for.
pub fn read_header<'t>(
    text: &'t [u8],
    inputs: &mut [u32],
    outputs: &mut [u32],
) -> Option<(HeaderNumbers, Cursor<'t>)>
    ensures { HeaderIs text.now inputs.new outputs.new result }
{
    let line1 = (Cursor { text, at: 0 }).skip_blanks();
    let (gates, wires, at1) = counts_line(line1)?;
    let line2 = at1.skip_blanks();
    let (ni, ins, at2) = values_line(line2, inputs)?;
    let line3 = at2.skip_blanks();
    let (no, outs, at3) = values_line(line3, outputs)?;
    let numbers = HeaderNumbers {
        gates,
        wires,
        input_values: ni,
        input_bits: ins,
        output_values: no,
        output_bits: outs,
    };
    Some((numbers, at3))
}
