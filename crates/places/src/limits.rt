//! Question 5: the first limit that a header goes past.
ghost use Rattle.std.specs.Prelude.{◌≡◌};
ghost use Rattle.places.specs.Limits.{over, first_over, clamped as at_most_64};

use crate::fault::{Fault, Spot};
use netlist::{Limits, Refusal};
use reader::header_lines::HeaderNumbers;

// A number, and the largest of 64 bits in place of one that is larger.
fn clamped(number: u128) -> u64
    ensures { result ≡ at_most_64 number }
{
    if number <= u64::MAX as u128 {
        number as u64
    } else {
        u64::MAX
    }
}

// The refusal of a number that is larger than it may be, told at a word of a header line.
fn over(line: usize, word: usize, have: u128, most: u64) -> Option<Fault>
    ensures { result ≡ over line word have most }
{
    if have <= most as u128 {
        return None;
    }
    Some(Fault {
        question: Refusal::Limits,
        spot: Spot::Word(line, word),
        have: clamped(have),
        most,
    })
}

/// The first limit that a header goes past, if there is one: the wires, the input values, the output values, then the
/// input bits and the output bits against the wires.
pub fn first_over(limits: Limits, header: HeaderNumbers) -> Option<Fault>
    ensures { result ≡ first_over limits header }
{
    let wires = over(0, 1, header.wires as u128, limits.wires as u64);
    let inputs = over(1, 0, header.input_values as u128, limits.inputs as u64);
    let outputs = over(2, 0, header.output_values as u128, limits.outputs as u64);
    let input_bits = over(1, 1, header.input_bits, header.wires as u64);
    let output_bits = over(2, 1, header.output_bits, header.wires as u64);
    wires.or(inputs).or(outputs).or(input_bits).or(output_bits)
}
