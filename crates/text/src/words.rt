//! A cursor goes over spaces, words and lines of its text.
ghost use Rattle.std.specs.Prelude.{◌≡◌, ℕ, Bool, true};
ghost use Rattle.netlist.specs.Text.{is_space, is_line_end};
ghost use Rattle.text.specs.Line.{is_blank, in_word, ThreeBytes};

use crate::cursor::Cursor;
use crate::ends::{is_line_end, is_space};

/// Whether a byte is part of no word.
pub fn is_blank(byte: u8) -> bool
    ensures { result ≡ is_blank byte }
{
    is_space(byte) || is_line_end(byte)
}

// Whether a byte is part of a word.
fn in_word(byte: u8) -> bool
    ensures { result ≡ in_word byte }
{
    !is_blank(byte)
}

// Whether three bytes above the space start at a place and a blank stands after them, as the name of a gate mostly
// does.
fn is_three_bytes(cursor: Cursor) -> bool
    ensures { result ≡ true → ThreeBytes cursor.entry.text.now cursor.entry.at }
{
    match &cursor.text[cursor.at..] {
        [x, y, z, following, ..] => *x > b' ' && *y > b' ' && *z > b' ' && is_blank(*following),
        _ => false,
    }
}

impl<'t> Cursor<'t> {
    ghost use Rattle.text.specs.Cursors.{Scanned, WordIs, EndIs, LineTaken};

    /// Past the bytes that pass a test.
    pub fn pass<F: Fn(u8) -> bool>(self, test: F) -> Self
        requires { F.IsAlwaysCallable test }
        ensures { (p : ℕ → Bool) → ((b : ℕ) (r : Bool) → F.post test b r → r ≡ p b) → Scanned p self.entry result }
    {
        let text = self.text;
        for i in self.at..text.len() {
            if !test(text[i]) {
                return Cursor { text, at: i };
            }
        }
        Cursor {
            text,
            at: text.len(),
        }
    }

    /// Past the spaces.
    pub fn skip_spaces(self) -> Self
        ensures { Scanned is_space self.entry result }
    {
        self.pass(is_space)
    }

    /// Past the bytes of a word.
    pub fn take_word(self) -> Self
        ensures { Scanned in_word self.entry result }
    {
        self.pass(in_word)
    }

    /// Past spaces and line ends, so past blank lines.
    pub fn skip_blanks(self) -> Self
        ensures { Scanned is_blank self.entry result }
    {
        self.pass(is_blank)
    }

    /// The next word of the line, empty where there is none, and the cursor after it.
    #[inline(always)]
    pub fn next_word(self) -> (&'t [u8], Self)
        ensures { WordIs self.entry result.0.now result.1 }
    {
        let text = self.text;
        let at = self.at;
        if is_three_bytes(self) {
            return (&text[at..at + 3], Cursor { text, at: at + 3 });
        }
        let start = self.skip_spaces();
        let end = start.take_word();
        (&text[start.at..end.at], end)
    }

    /// To the next line, if this one has no words left.
    pub fn line_end(self) -> Option<Self>
        ensures { EndIs self.entry result }
    {
        let text = self.text;
        let here = self.at;
        if here < text.len() {
            if is_line_end(text[here]) {
                return Some(Cursor { text, at: here + 1 });
            }
        }
        let end = self.skip_spaces();
        let at = end.at;
        if text.len() <= at {
            return Some(end);
        }
        if is_line_end(text[at]) {
            return Some(Cursor { text, at: at + 1 });
        }
        None
    }

    /// To the next line, whatever is left of this one.
    pub fn next_line(self) -> Self
        ensures { LineTaken self.entry result }
    {
        let end = self.pass(|b| !is_line_end(b));
        if end.at < end.text.len() {
            return Cursor {
                text: end.text,
                at: end.at + 1,
            };
        }
        end
    }
}
