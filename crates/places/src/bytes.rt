//! Question 3: the first byte that may not stand in a text.
ghost use Rattle.std.specs.Prelude.{◌≡◌, ◌+◌, ◌<◌, get_or, length};
ghost use Rattle.text.specs.Answers.{allowed_before};
ghost use Rattle.places.specs.Bytes.{BytesIs};

use text::ends::{is_cr, is_line_end};
use text::number::is_digit;

// Question 3 of a byte and the one after it: it is allowed by itself, or they are CR LF.
fn is_allowed(byte: u8, next: u8) -> bool
    ensures { result ≡ allowed_before byte next }
{
    is_digit(byte)
        || byte.is_ascii_uppercase()
        || byte == b' '
        || is_line_end(byte)
        || (is_cr(byte) && is_line_end(next))
}

// The byte at a place, and 0 past the text's end.
fn byte_at(text: &[u8], at: usize) -> u8
    ensures { result ≡ get_or text.now at 0 }
{
    match text.get(at) {
        Some(byte) => *byte,
        None => 0,
    }
}

// Question 3 of the byte at a place, with the one after it.
fn is_allowed_at(text: &[u8], at: usize) -> bool
    requires { at < length text.now }
    ensures { result ≡ allowed_before (get_or text.now at 0) (get_or text.now (at + 1) 0) }
{
    is_allowed(text[at], byte_at(text, at + 1))
}

/// The first byte that question 3 refuses.
pub fn first_refused(text: &[u8]) -> Option<usize>
    ensures { BytesIs text.now result }
{
    for i in 0..text.len() {
        if !is_allowed_at(text, i) {
            return Some(i);
        }
    }
    None
}
