//! The first refused place of a text, for programs in C and Rust.
ghost use Rattle.std.specs.Prelude.{◌≡◌};
ghost use Rattle.capi.specs.Number.{sizes_of};
ghost use Rattle.capi.specs.RefusedPlaces.{limits_for, place_answer, refused_by as question_alone, PlaceTold};

use crate::answers::sizes;
use netlist::{Limits, Refusal, Sizes};
use places::fault::Spot;
use places::place::{Place, find};

/// The question that refuses a text, and where; 0, with all else 0, where none does. `offset` counts bytes from 0,
/// `line` and `column` from 1. `entry` is the line again, and `word` its word, each from 0 and without blank lines;
/// both are 0 where a byte is refused.
#[repr(C)]
#[derive(Clone, Copy, Default)]
pub struct PlaceAnswer {
    pub offset: usize,
    pub line: usize,
    pub column: usize,
    pub entry: usize,
    pub word: usize,
    pub have: u64,
    pub most: u64,
    pub refused: u8,
}

// The limits of a source for 0, and otherwise those of a masked netlist.
fn limits(masked: u8, sizes: Sizes) -> Limits
    ensures { result ≡ limits_for masked sizes }
{
    if masked == 0 {
        sizes.source_limits()
    } else {
        sizes.masked_limits()
    }
}

// A place as C reads it.
fn told(found: Option<Place>) -> PlaceAnswer
    ensures { result ≡ place_answer found }
{
    let Some(place) = found else {
        return refused_by(0);
    };
    let (entry, word) = match place.fault.spot {
        Spot::Byte(_) => (0, 0),
        Spot::Word(line, word) => (line, word),
    };
    PlaceAnswer {
        offset: place.offset,
        line: place.line,
        column: place.column,
        entry,
        word,
        have: place.fault.have,
        most: place.fault.most,
        refused: place.fault.question.number(),
    }
}

// A question without a place.
fn refused_by(question: u8) -> PlaceAnswer
    ensures { result ≡ question_alone question }
{
    PlaceAnswer {
        offset: 0,
        line: 0,
        column: 0,
        entry: 0,
        word: 0,
        have: 0,
        most: 0,
        refused: question,
    }
}

/// The first refused place of a text, by the limits of a source or of a masked netlist; 1 without a place where the
/// table of given wires is too short.
#[unsafe(no_mangle)]
pub extern "C" fn fidrovelj_place(
    text: &[u8],
    marks: &mut [u8],
    masked: u8,
    whole: u8,
) -> PlaceAnswer
    ensures { PlaceTold (limits_for masked (sizes_of whole)) text.now marks.old marks.new result }
{
    let limits = limits(masked, sizes(whole));
    if marks.len() < limits.wires as usize {
        marks.fill(0);
        return refused_by(Refusal::Tables.number());
    }
    told(find(text, marks, limits))
}
