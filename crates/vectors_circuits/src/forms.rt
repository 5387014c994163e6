//! Rewrite: a text in the written form comes back as it is, and so does one that has more spaces and blank lines.
use crate::{buffers, services, words};
use program::report::Score;

// Whether a text is rewritten as this form of it.
fn becomes(text: &[u8], form: &[u8]) -> bool {
    let mut out = buffers::text();
    services::rewrite(text, &mut out).is_ok_and(|n| words::part(&out, 0, n) == form)
}

// A byte, and one more of its kind after a space or a line's end; answers the place after them.
fn twice(out: &mut [u8], at: usize, byte: u8) -> usize {
    words::put(out, at, byte);
    let next = at.wrapping_add(1);
    if byte <= 32 {
        words::put(out, next, byte);
        return next.wrapping_add(1);
    }
    next
}

// The same netlist with each space and each line's end twice; answers its length.
fn loosen(text: &[u8], out: &mut [u8]) -> usize {
    let mut at = 0;
    for b in text {
        at = twice(out, at, *b);
    }
    at
}

// A text in the written form. Its loose form counts where it is within the limit of 500,000 bytes.
pub(crate) fn score(text: &[u8]) -> Score {
    let mut loose = buffers::text();
    let n = loosen(text, &mut loose);
    let s = Score::of(becomes(text, text));
    if loose.len() < n {
        return s;
    }
    s.case(becomes(words::part(&loose, 0, n), text))
}
