//! Where a byte and a word stand in a text.
ghost use Rattle.std.specs.Prelude.{◌≡◌, ◌≤◌, length, take};
ghost use Rattle.places.specs.Positions.{line_after, column_after, Stands};

use text::cursor::Cursor;
use text::ends::is_line_end;

/// The line and the column of the byte after the front of a text, each counted from 1, blank lines too.
pub fn line_and_column(front: &[u8]) -> (usize, usize)
    ensures { (result.0 ≡ line_after 1 front.now) × (result.1 ≡ column_after 1 front.now) }
{
    let mut line: usize = 1;
    let mut column: usize = 1;
    for i in 0..front.len() {
        if is_line_end(front[i]) {
            line += 1;
            column = 1;
        } else {
            column += 1;
        }
    }
    (line, column)
}

// Past so many lines that are not blank, to the next one.
pub(crate) fn line_start(text: &[u8], line: usize) -> Cursor
    ensures { Stands text.now line 0 result.at × (result.text.now ≡ text.now) }
{
    let mut here = (Cursor { text, at: 0 }).skip_blanks();
    for _ in 0..line {
        here = here.next_line().skip_blanks();
    }
    here
}

/// Where a word of a line starts: lines and words are counted from 0, and blank lines are none. Where the line has no
/// such word, its end.
pub fn word_start(text: &[u8], line: usize, word: usize) -> usize
    ensures { Stands text.now line word result }
{
    let mut here = line_start(text, line);
    for _ in 0..word {
        let (_, end) = here.next_word();
        here = end.skip_spaces();
    }
    here.at
}
