//! Question 4: the first header line that is not of its form.
ghost use Rattle.std.specs.Prelude.{◌≡◌, ◌&&◌, leb, eqb};
ghost use Rattle.netlist.specs.Header.{header, numbers};
ghost use Rattle.netlist.specs.Text.{word_lines};
ghost use Rattle.text.specs.Line.{line_words};
ghost use Rattle.text.specs.Cursors.{left};
ghost use Rattle.std.proofs.Math.Option.{none};
ghost use Rattle.places.specs.HeaderLines.{header_form, RestIs, HeaderRefused};

use crate::position::line_start;
use text::cursor::Cursor;

// Whether a number is 1 or more, and those before it are.
fn also_positive(before: bool, number: u32) -> bool
    ensures { result ≡ (before && leb 1 number) }
{
    before && 1 <= number
}

// Whether so many numbers follow a first one as it says, 1 or more, each of them 1 or more.
fn are_values(first: u32, count: usize, positive: bool) -> bool
    ensures { result ≡ (leb 1 first && eqb first count && positive) }
{
    1 <= first && first as usize == count && positive
}

// The numbers up to the line's end: how many they are, and whether each is 1 or more.
fn rest_of_line(at: Cursor) -> Option<(usize, bool)>
    ensures { RestIs at.entry result }
{
    let mut here = at;
    let mut count: usize = 0;
    let mut positive = true;
    loop {
        if let Some(_) = here.line_end() {
            return Some((count, positive));
        }
        let (number, on) = here.next_number()?;
        count += 1;
        positive = also_positive(positive, number);
        here = on;
    }
}

// Whether a line consists of two numbers.
fn is_pair(at: Cursor) -> bool
    ensures { result ≡ header_form 0 (numbers (line_words (left at.entry))) }
{
    match rest_of_line(at) {
        Some((count, _)) => count == 2,
        None => false,
    }
}

// Whether a line begins with a number of 1 or more, and as many such numbers follow.
fn is_values(at: Cursor) -> bool
    ensures { result ≡ header_form 1 (numbers (line_words (left at.entry))) }
{
    let Some((first, on)) = at.next_number() else {
        return false;
    };
    match rest_of_line(on) {
        Some((count, positive)) => are_values(first, count, positive),
        None => false,
    }
}

/// The first header line that is not of its form, of a text that has no header. Lines are counted from 0; one that is
/// not there is of no form.
pub fn first_refused(text: &[u8]) -> usize
    requires { header (word_lines text.now) ≡ none }
    ensures { HeaderRefused (word_lines text.now) result }
{
    if !is_pair(line_start(text, 0)) {
        return 0;
    }
    if !is_values(line_start(text, 1)) {
        return 1;
    }
    2
}
