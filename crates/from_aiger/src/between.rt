//! What stands between words and lines.
ghost use Rattle.std.specs.Prelude.{◌≡◌, ◌<◌, length, drop};
ghost use Rattle.text.specs.Cursors.{Scanned};
ghost use Rattle.from_aiger.specs.Stray.{is_plain, is_stray, is_between};

use crate::lines::Lines;
use text::cursor::Cursor;
use text::ends::{is_cr, is_line_end};
use text::words::is_blank;

/// Whether a CR stands at a place, and no LF after it.
pub fn is_stray(text: &[u8], index: usize) -> bool
    ensures { result ≡ is_stray (drop index text.now) }
{
    index < text.len()
        && is_cr(text[index])
        && !text.get(index + 1).is_some_and(|b| is_line_end(*b))
}

// Whether the byte at a place is part of no word: a space, LF, or the CR of CR LF.
fn is_between(text: &[u8], index: usize) -> bool
    requires { index < length text.now }
    ensures { result ≡ is_between (drop index text.now) }
{
    is_blank(text[index]) && !is_stray(text, index)
}

/// Past spaces.
pub fn past_spaces(at: Cursor) -> Cursor
    ensures { Scanned is_plain at.entry result }
{
    let text = at.text;
    for i in at.at..text.len() {
        if text[i] != b' ' {
            return Cursor { text, at: i };
        }
    }
    Cursor {
        text,
        at: text.len(),
    }
}

impl Lines<'_> {
    ghost use Rattle.from_aiger.specs.Stray.{ToWord};

    /// The place of the next word, past spaces and line ends.
    pub fn to_word(self) -> usize
        ensures { ToWord self.entry.text.now self.entry.at result }
    {
        let text = self.text;
        for i in self.at..text.len() {
            if !is_between(text, i) {
                return i;
            }
        }
        text.len()
    }
}
