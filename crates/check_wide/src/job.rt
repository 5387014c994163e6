//! What is searched.
use crate::items::Items;
use gates::Gates;
use questions::codes::Codes;

/// The gates whose wires are judged, the codes of their inputs, and the wires and pairs that are to be served.
#[derive(Clone, Copy)]
pub struct Job<'g, 'c, 's, 'p> {
    pub gates: Gates<'g>,
    pub codes: Codes<'c>,
    pub items: Items<'s, 'p>,
}
