//! Questions 7 to 9: the first gate line that one of them refuses.
ghost use Rattle.std.specs.Prelude.{[], drop};
ghost use Rattle.netlist.specs.Text.{word_lines};
ghost use Rattle.reader.specs.Marks.{Marks};
ghost use Rattle.places.specs.Lines.{LinesIs};

use crate::gate_words::{gate_refused, result_of};
use netlist::Refusal;
use reader::step::step_at;

// How many lines come before the first gate line.
const HEADER_LINES: usize = 3;

/// A refused gate line: its number among the lines that are not blank and the word, each counted from 0, and the
/// question.
#[derive(Clone, Copy, Debug, PartialEq, Eq)]
pub struct RefusedLine {
    pub line: usize,
    pub question: Refusal,
    pub word: usize,
}

/// The first gate line from a place on that is refused; `given` marks the inputs alone.
pub fn first_refused(
    text: &[u8],
    from: usize,
    inputs: u32,
    wires: u32,
    given: &mut [u8],
) -> Option<RefusedLine>
    requires { Marks given.old inputs wires [] }
    ensures { LinesIs inputs wires (word_lines (drop from text.now)) result }
{
    let mut at = from;
    let mut line = HEADER_LINES;
    loop {
        let (gate, next) = match step_at(text, at) {
            Ok(None) => return None,
            Ok(Some(found)) => found,
            Err(_) => {
                return Some(RefusedLine {
                    line,
                    question: Refusal::Line,
                    word: 0,
                });
            }
        };
        if let Some((question, word)) = gate_refused(given, inputs, wires, gate) {
            return Some(RefusedLine {
                line,
                question,
                word,
            });
        }
        given[result_of(gate) as usize] = 1;
        at = next;
        line += 1;
    }
}
