//! One step of the gate reader: question 7 of the line at a place.
ghost use Rattle.std.specs.Prelude.{◌≡◌};
ghost use Rattle.reader.specs.Steps.{place_after, StepIs};

use crate::gate_line::gate_line;
use netlist::{Gate, Refusal};
use text::cursor::Cursor;

/// What the reader says: a gate with the place after its line, nothing at the end, or the question with a no.
pub type Step = Result<Option<(Gate, usize)>, Refusal>;

/// What the reader says at a place. Past the text's end it says end.
pub fn step_at(text: &[u8], at: usize) -> Step
    ensures { StepIs text.now at result }
{
    if text.len() <= at {
        return Ok(None);
    }
    let line = (Cursor { text, at }).skip_blanks();
    if text.len() <= line.at {
        return Ok(None);
    }
    let (g, next) = gate_line(line).ok_or(Refusal::Line)?;
    Ok(Some((Gate::from(g), next.at)))
}

/// The place of the next step: after a gate, and otherwise the same.
pub fn place_after(at: usize, step: Step) -> usize
    ensures { result ≡ place_after at step }
{
    match step {
        Ok(Some((_, to))) => to,
        Ok(None) | Err(_) => at,
    }
}
