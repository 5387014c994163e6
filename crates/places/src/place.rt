//! A refused place as an offset, a line and a column.
ghost use Rattle.std.specs.Prelude.{◌≤◌, length};
ghost use Rattle.netlist.specs.Services.{Cleared};
ghost use Rattle.places.specs.Place.{SpotAt, PlaceIs, PlacedIs};

use crate::fault::{Fault, Spot};
use crate::position::{line_and_column, word_start};
use netlist::Limits;

/// A refusal with the offset of its byte, counted from 0, and with the line and the column, counted from 1. Blank lines
/// count here.
#[derive(Clone, Copy, Debug, PartialEq, Eq)]
pub struct Place {
    pub fault: Fault,
    pub offset: usize,
    pub line: usize,
    pub column: usize,
}

// The offset of a spot, at most the text's length.
fn offset(text: &[u8], spot: Spot) -> usize
    ensures { SpotAt text.now spot result }
{
    match spot {
        Spot::Byte(at) => { if at <= text.len() { at } else { text.len() } }
        Spot::Word(line, word) => word_start(text, line, word),
    }
}

// Where a refusal of a text stands.
fn of(text: &[u8], fault: Fault) -> Place
    ensures { PlaceIs text.now fault result }
{
    let offset = offset(text, fault.spot);
    let (line, column) = line_and_column(&text[..offset]);
    Place {
        fault,
        offset,
        line,
        column,
    }
}

/// The first refused place of a text under some limits, or none where it reads as a netlist. The table of given wires,
/// of any content, has an entry for each wire that the limits admit; it is zero on return.
pub fn find(text: &[u8], given: &mut [u8], limits: Limits) -> Option<Place>
    requires { limits.wires ≤ length given.old }
    ensures found { PlacedIs limits text.now result }
    ensures cleared { Cleared given.old given.new }
{
    let fault = crate::find::find(text, given, limits)?;
    Some(of(text, fault))
}
