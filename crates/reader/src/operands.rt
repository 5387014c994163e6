//! The two counts that a gate line begins with: its operands and its one result.
ghost use Rattle.reader.specs.OperandAnswers.{OperandsIs, UsualIs};

use text::cursor::Cursor;

// The counts as most lines have them, one digit and a space each: how many operands, with the place after.
fn usual_operands(at: Cursor) -> Option<(u32, Cursor)>
    ensures { UsualIs at.entry result }
{
    let Some((operands, at1)) = at.take_digit() else {
        return None;
    };
    let Some((results, at2)) = at1.take_digit() else {
        return None;
    };
    if results == 1 {
        return Some((operands, at2));
    }
    None
}

// The counts however they are written.
fn any_operands(at: Cursor) -> Option<(u32, Cursor)>
    ensures { OperandsIs at.entry result }
{
    let Some((operands, at1)) = at.next_number() else {
        return None;
    };
    let Some((results, at2)) = at1.next_number() else {
        return None;
    };
    if results != 1 {
        return None;
    }
    Some((operands, at2))
}

/// The counts of the line from a place, first as most lines have them.
#[inline(always)]
pub fn read_operands(at: Cursor) -> Option<(u32, Cursor)>
    ensures { OperandsIs at.entry result }
{
    match usual_operands(at) {
        Some(usual) => Some(usual),
        None => any_operands(at),
    }
}
