//! The head of a text: what is asked of its bytes and of its header before any gate line. Questions 2 to 5, and the
//! half of question 6 that needs the header alone.
ghost use Rattle.std.specs.Prelude.{◌≡◌};
ghost use Rattle.reader.specs.HeaderAnswers.{HeaderSays};
ghost use Rattle.reader.specs.HeadAnswers.{gates_counted, WithinIs, BytesIs, HeadSays, HeadIs};

use crate::header::Header;
use crate::header_lines::{HeaderNumbers, read_header};
use crate::old_header::read_old_header;
use dialect::Dialect;
use netlist::{Limits, Refusal};
use text::allowed::all_allowed;
use text::cursor::Cursor;

// Question 5: the numbers as a header, where the wires and the values are few enough, and the bits of the values no
// more than the wires.
#[tactic(auto, unfolding(crate::specs::HeadAnswers::within_numbers))]
fn within(limits: Limits, header: HeaderNumbers) -> Option<Header>
    ensures { WithinIs limits header result }
{
    if header.wires <= limits.wires
        && header.input_values <= limits.inputs
        && header.output_values <= limits.outputs
        && header.input_bits <= header.wires as u128
        && header.output_bits <= header.wires as u128
    {
        Some(Header {
            gates: header.gates,
            wires: header.wires,
            input_values: header.input_values,
            input_bits: header.input_bits as u64,
            output_values: header.output_values,
            output_bits: header.output_bits as u64,
        })
    } else {
        None
    }
}

// The first half of question 6: the gate count is W less n.
#[tactic(auto, unfolding(crate::specs::HeadAnswers::gates_counted))]
fn gates_counted(header: Header) -> bool
    ensures { result ≡ gates_counted header }
{
    header.gates as u64 == header.wires as u64 - header.input_bits
}

// Questions 2 and 3.
#[tactic(auto, using(crate::proofs::Heads::no_length, crate::proofs::Heads::no_bytes))]
fn ask_bytes(text: &[u8], limits: Limits) -> Result<(), Refusal>
    ensures { BytesIs limits text.now result }
{
    if limits.text < text.len() {
        return Err(Refusal::Length);
    }
    if !all_allowed(text) {
        return Err(Refusal::Bytes);
    }
    Ok(())
}

// Question 4 in a dialect.
fn read_header_in<'t>(
    text: &'t [u8],
    inputs: &mut [u32],
    outputs: &mut [u32],
    dialect: Dialect,
) -> Option<(HeaderNumbers, Cursor<'t>)>
    ensures { HeaderSays dialect text.now inputs.new outputs.new result }
{
    match dialect {
        Dialect::Fashion => read_header(text, inputs, outputs),
        Dialect::Old => read_old_header(text, inputs, outputs),
    }
}

/// Questions 2 to 6 in a dialect, but for the number of gate lines: the header's numbers, with the place after its last
/// line. The widths go into the tables, as many as they have room for.
#[tactic(auto, using(crate::proofs::Heads::no_header, crate::proofs::Heads::no_limits, crate::proofs::Heads::no_count))]
pub fn read_opening_in<'t>(
    text: &'t [u8],
    limits: Limits,
    inputs: &mut [u32],
    outputs: &mut [u32],
    dialect: Dialect,
) -> Result<(Header, Cursor<'t>), Refusal>
    ensures { HeadSays dialect limits text.now inputs.new outputs.new result }
{
    ask_bytes(text, limits)?;
    let (said, at) = read_header_in(text, inputs, outputs, dialect).ok_or(Refusal::Header)?;
    let h = within(limits, said).ok_or(Refusal::Limits)?;
    if !gates_counted(h) {
        return Err(Refusal::Count);
    }
    Ok((h, at))
}

/// Questions 2 to 6 with the header of Bristol Fashion, but for the number of gate lines.
pub fn read_opening<'t>(
    text: &'t [u8],
    limits: Limits,
    inputs: &mut [u32],
    outputs: &mut [u32],
) -> Result<(Header, Cursor<'t>), Refusal>
    ensures { HeadIs limits text.now inputs.new outputs.new result }
{
    read_opening_in(text, limits, inputs, outputs, Dialect::Fashion)
}
