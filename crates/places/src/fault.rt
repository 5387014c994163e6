//! A refused place.

use netlist::Refusal;

/// Where in a text: a byte, or a word of a line. Bytes, lines and words are counted from 0, and a line that is blank is
/// none.
#[derive(Clone, Copy, Debug, PartialEq, Eq)]
pub enum Spot {
    /// The byte of this number.
    Byte(usize),
    /// The line of this number, and of its words this one.
    Word(usize, usize),
}

/// The question that refuses a text, and where. Question 2 comes with the text's length and the limit, 5 with the
/// number and its limit, 6 with the gate count of the header and the one there should be; otherwise both are 0.
#[derive(Clone, Copy, Debug, PartialEq, Eq)]
pub struct Fault {
    pub question: Refusal,
    pub spot: Spot,
    pub have: u64,
    pub most: u64,
}
