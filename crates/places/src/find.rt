//! The first refused place of a text.
ghost use Rattle.std.specs.Prelude.{◌≡◌, ◌≤◌, length, replicate, [], ℕ};
ghost use Rattle.netlist.specs.Services.{Cleared};
ghost use Rattle.reader.specs.Marks.{Marks};
ghost use Rattle.places.specs.Places.{refusal as refusal_of, count_refused as refused_count};
ghost use Rattle.places.specs.Places.{HeaderFaultIs, LineFaultIs, FoundIs};
ghost use Rattle.netlist.specs.Text.{word_lines};
ghost use Rattle.text.specs.Cursors.{left};

use crate::fault::{Fault, Spot};
use crate::limits::first_over;
use crate::{bytes, header_lines, lines};
use netlist::{Limits, Refusal};
use reader::header_lines::{HeaderNumbers, read_header};
use text::count::count_lines;
use text::cursor::Cursor;

// A refusal told at a place.
fn refusal(question: Refusal, spot: Spot, have: u64, most: u64) -> Fault
    ensures { result ≡ refusal_of question spot have most }
{
    Fault {
        question,
        spot,
        have,
        most,
    }
}

// Question 6 of a header and so many gate lines, told at the gate count.
fn count_refused(header: HeaderNumbers, lines: usize) -> Option<Fault>
    requires { header.input_bits ≤ header.wires }
    ensures { result ≡ refused_count header lines }
{
    let gates = header.gates as u64;
    let left = header.wires as u64 - header.input_bits as u64;
    if gates != left {
        return Some(refusal(Refusal::Count, Spot::Word(0, 0), gates, left));
    }
    if lines as u64 != gates {
        return Some(refusal(Refusal::Count, Spot::Word(0, 0), gates, lines as u64));
    }
    None
}

// Marks so many inputs in a table that marks nothing.
fn mark_inputs(given: &mut [u8], inputs: u32)
    requires { (inputs ≤ length given.old) × (given.old ≡ replicate (length given.old) 0) }
    ensures { (W : ℕ) → inputs ≤ W → W ≤ length given.old → Marks given.new inputs W [] }
{
    given[..inputs as usize].fill(1);
}

// Questions 5 and 6 of a header and so many gate lines.
fn header_fault(limits: Limits, header: HeaderNumbers, lines: usize) -> Option<Fault>
    ensures { HeaderFaultIs limits header lines result }
{
    if let Some(fault) = first_over(limits, header) {
        return Some(fault);
    }
    count_refused(header, lines)
}

// Questions 7 to 9 of the lines after a header that questions 5 and 6 admit.
fn line_fault(at: Cursor, header: HeaderNumbers, given: &mut [u8]) -> Option<Fault>
    requires { (header.input_bits ≤ header.wires) × (header.wires ≤ length given.old)
        × (given.old ≡ replicate (length given.old) 0) }
    ensures { LineFaultIs header (word_lines (left at.entry)) result }
{
    let inputs = header.input_bits as u32;
    mark_inputs(given, inputs);
    let refused = lines::first_refused(at.text, at.at, inputs, header.wires, given)?;
    let spot = Spot::Word(refused.line, refused.word);
    Some(refusal(refused.question, spot, 0, 0))
}

// The first refused place, with a table that marks nothing.
fn first_fault(text: &[u8], given: &mut [u8], limits: Limits) -> Option<Fault>
    requires { (limits.wires ≤ length given.old) × (given.old ≡ replicate (length given.old) 0) }
    ensures { FoundIs limits text.now result }
{
    if limits.text < text.len() {
        let spot = Spot::Byte(limits.text);
        return Some(refusal(Refusal::Length, spot, text.len() as u64, limits.text as u64));
    }
    if let Some(at) = bytes::first_refused(text) {
        return Some(refusal(Refusal::Bytes, Spot::Byte(at), 0, 0));
    }
    let mut inputs = [0u32; 1];
    let mut outputs = [0u32; 1];
    let Some((header, at)) = read_header(text, &mut inputs, &mut outputs) else {
        let line = header_lines::first_refused(text);
        return Some(refusal(Refusal::Header, Spot::Word(line, 0), 0, 0));
    };
    if let Some(fault) = header_fault(limits, header, count_lines(at)) {
        return Some(fault);
    }
    line_fault(at, header, given)
}

/// The first refused place of a text under some limits, or none where it reads as a netlist. The table of given wires,
/// of any content, has an entry for each wire that the limits admit; it is zero on return.
pub fn find(text: &[u8], given: &mut [u8], limits: Limits) -> Option<Fault>
    requires { limits.wires ≤ length given.old }
    ensures found { FoundIs limits text.now result }
    ensures cleared { Cleared given.old given.new }
{
    given.fill(0);
    let found = first_fault(text, given, limits);
    given.fill(0);
    found
}
