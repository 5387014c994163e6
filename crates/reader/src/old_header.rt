//! The two header lines of the older dialect: question 4.
ghost use Rattle.std.specs.Prelude.{◌≡◌, length};
ghost use Rattle.dialect.specs.OldHeader.{input_values};
ghost use Rattle.dialect.specs.declared.Dialect.TheVariants.{Old};
ghost use Rattle.reader.specs.HeaderAnswers.{Kept, PartiesIs, HeaderSays};

use crate::header_lines::{HeaderNumbers, counts_line};
use dialect::Parties;
use gates::entries::put;
use text::cursor::Cursor;

// Line two: the bits of party one, of party two and of the output, with the start of the next line.
fn parties_line(at: Cursor) -> Option<(Parties, Cursor)>
    ensures { PartiesIs at.entry result }
{
    let Some((one, following)) = at.next_number() else {
        return None;
    };
    let (two, output, next) = counts_line(following)?;
    if one == 0 {
        return None;
    }
    if output == 0 {
        return None;
    }
    Some((Parties { one, two, output }, next))
}

// The input values into a table, as many as it has room for; answers how many they are. Party two is left out when it
// is 0.
fn keep_inputs(table: &mut [u32], parties: Parties) -> usize
    ensures { (result ≡ length (input_values parties)) × Kept table.new (input_values parties) }
{
    put(table, 0, parties.one);
    if parties.two == 0 {
        return 1;
    }
    put(table, 1, parties.two);
    2
}

/// Question 4. The widths go into the tables, as many as they have room for.
pub fn read_old_header<'t>(
    text: &'t [u8],
    inputs: &mut [u32],
    outputs: &mut [u32],
) -> Option<(HeaderNumbers, Cursor<'t>)>
    ensures { HeaderSays Old text.now inputs.new outputs.new result }
{
    let line1 = (Cursor { text, at: 0 }).skip_blanks();
    let (gates, wires, at1) = counts_line(line1)?;
    let line2 = at1.skip_blanks();
    let (p, at2) = parties_line(line2)?;
    let values = keep_inputs(inputs, p);
    put(outputs, 0, p.output);
    let numbers = HeaderNumbers {
        gates,
        wires,
        input_values: values,
        input_bits: p.one as u128 + p.two as u128,
        output_values: 1,
        output_bits: p.output as u128,
    };
    Some((numbers, at2))
}
