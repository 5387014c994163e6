//! Lines and words of a text, by their places.

ghost use Rattle.std.specs.Prelude.{◌≤◌, length};

use text::number::take_number;

/// A part of a text, from one place up to another.
#[derive(Clone, Copy, Debug, PartialEq, Eq)]
pub struct Span {
    /// the place of its first byte
    pub start: usize,
    /// the place after its last byte
    pub end: usize,
}

impl Span {
    /// The bytes of the part; none where the text is shorter.
    pub fn of(self, text: &[u8]) -> &[u8] {
        let end = self.end.min(text.len());
        let start = self.start.min(end);
        &text[start..end]
    }
}

/// Whether a byte parts words.
pub fn is_blank(byte: u8) -> bool {
    matches!(byte, b' ' | b'\r' | b'\n')
}

/// The place of the first byte from `from` on that passes a test, or the text's end.
pub fn place_of<F: Fn(u8) -> bool>(text: &[u8], from: usize, test: F) -> usize
    requires { F.IsAlwaysCallable test }
    ensures { result ≤ length text.now }
{
    for at in from..text.len() {
        if test(text[at]) {
            return at;
        }
    }
    text.len()
}

/// The next line that is not blank, from a place on.
pub fn next_line(text: &[u8], from: usize) -> Option<Span> {
    let start = place_of(text, from, |byte| !is_blank(byte));
    if start == text.len() {
        return None;
    }
    let end = place_of(text, start, |byte| byte == b'\n');
    Some(Span { start, end })
}

/// The next word of a line, from a place on.
pub fn next_word(text: &[u8], line: Span, from: usize) -> Option<Span> {
    let start = place_of(text, from, |byte| !is_blank(byte));
    if line.end <= start {
        return None;
    }
    let end = place_of(text, start, is_blank);
    Some(Span {
        start,
        end: end.min(line.end),
    })
}

/// How many words a line has.
pub fn count_words(text: &[u8], line: Span) -> usize {
    let mut at = line.start;
    for found in 0..text.len() {
        match next_word(text, line, at) {
            Some(word) => at = word.end,
            None => return found,
        }
    }
    text.len()
}

/// The word of a line with this number, from 0.
pub fn word(text: &[u8], line: Span, number: usize) -> Option<Span> {
    let mut at = line.start;
    for _ in 0..number {
        at = next_word(text, line, at)?.end;
    }
    next_word(text, line, at)
}

/// The number that a word stands for.
pub fn number(word: &[u8]) -> Option<u32> {
    match take_number(word, 0) {
        Some((value, end)) if end == word.len() => Some(value),
        _ => None,
    }
}

/// The first word of a line, from the one with this number on, that is no number.
pub fn first_odd(text: &[u8], line: Span, from: usize) -> Option<Span> {
    let mut at = match from {
        0 => line.start,
        _ => word(text, line, from.saturating_sub(1))?.end,
    };
    for _ in 0..text.len() {
        let next = next_word(text, line, at)?;
        if number(next.of(text)).is_none() {
            return Some(next);
        }
        at = next.end;
    }
    None
}
