//! A source's gates with its codes.
ghost use Rattle.std.specs.Prelude.{◌≡◌};

use crate::Gates;

/// The gates of a source, the codes of its input bits, which Mask with fewer changes may choose where one is 4, and the
/// wanted codes of its output bits.
#[derive(Clone, Copy)]
pub struct CodedGates<'a> {
    pub gates: Gates<'a>,
    pub codes: &'a [u8],
    pub wanted: &'a [u8],
}

impl<'a> CodedGates<'a> {
    /// Gives the three one lifetime: the borrow checker does not cover a literal of gates that are lent for less long
    /// than the lists.
    pub fn new(gates: Gates<'a>, codes: &'a [u8], wanted: &'a [u8]) -> Self
        ensures { (result.gates ≡ gates.entry) × (result.codes ≡ codes.entry) × (result.wanted ≡ wanted.entry) }
    {
        CodedGates {
            gates,
            codes,
            wanted,
        }
    }
}
