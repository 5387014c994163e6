//! A refusal as the user sees it: file, line and column, words, the line itself with a caret, and what to do.

use crate::advice::{advice, word_at};
use crate::place::{Fault, Found, find};
use netlist::{Limits, Refusal};
use std::alloc::{AllocError, Global};
use std::fmt;

/// How many bytes of a long line are shown.
const SHOWN: usize = 100;

/// A place of a file in words: line and column from 1, and the line.
#[derive(Debug, Drop)]
pub struct Place {
    /// the line's number, from 1
    pub line: usize,
    /// the byte's number in its line, from 1
    pub column: usize,
    /// the line, or a part of a long one
    pub text: String,
    /// how many bytes of `text` stand before the place
    pub before: usize,
}

/// A refusal.
#[derive(Debug, Drop)]
pub struct RefusedText {
    /// the file that is refused
    pub file: String,
    /// where it is refused
    pub place: Option<Place>,
    /// what is wrong
    pub words: String,
    /// the question's number
    pub number: u8,
    /// what to do
    pub advice: Option<&'static str>,
}

impl fmt::Display for Place {
    fn fmt<W: fmt::Write>(&self, f: &mut fmt::Formatter<W>) -> fmt::Result {
        let text = self.text.as_str();
        writeln!(f)?;
        writeln!(f, "  {text}")?;
        f.write_str("  ")?;
        for _ in 0..self.before {
            f.write_str(" ")?;
        }
        f.write_str("^")
    }
}

impl fmt::Display for RefusedText {
    fn fmt<W: fmt::Write>(&self, f: &mut fmt::Formatter<W>) -> fmt::Result {
        let file = self.file.as_str();
        let words = self.words.as_str();
        let number = self.number;
        match &self.place {
            Some(place) => {
                let line = place.line;
                let column = place.column;
                write!(
                    f,
                    "{file}:{line}:{column}: {words} (refused by {number}){place}"
                )?;
            }
            None => write!(f, "{file}: {words} (refused by {number})")?,
        }
        match self.advice {
            Some(advice) => write!(f, "\n  {advice}"),
            None => Ok(()),
        }
    }
}

/// Where the line of a place begins.
fn line_start(text: &[u8], at: usize) -> usize {
    let before = &text[..at.min(text.len())];
    match before.iter().rposition(|byte| *byte == b'\n') {
        Some(end) => end.saturating_add(1).min(before.len()),
        None => 0,
    }
}

fn count_line_ends(text: &[u8]) -> usize {
    text.iter().filter(|byte| **byte == b'\n').count()
}

/// A byte as it is shown: as it is where it can be printed, else `?`.
fn shown(byte: u8) -> char {
    match byte {
        b' '..=b'~' => char::from(byte),
        b'\t' => ' ',
        _ => '?',
    }
}

/// The line from a place on, at most so many bytes as are shown.
fn line_text(alloc: Global, text: &[u8], from: usize) -> Result<String, AllocError> {
    let mut line = String::new(alloc);
    for byte in text.iter().skip(from).take(SHOWN) {
        if matches!(*byte, b'\n' | b'\r') {
            break;
        }
        line.push(shown(*byte))?;
    }
    Ok(line)
}

impl Place {
    /// The place of a byte of a text. Of a long line the part around it is shown.
    pub fn of(alloc: Global, text: &[u8], at: usize) -> Result<Place, AllocError> {
        let at = at.min(text.len());
        let start = line_start(text, at);
        let column = at.saturating_sub(start);
        let cut = if column < SHOWN / 2 {
            0
        } else {
            column - SHOWN / 2
        };
        Ok(Place {
            line: count_line_ends(&text[..at]).saturating_add(1),
            column: column.saturating_add(1),
            text: line_text(alloc, text, start.saturating_add(cut))?,
            before: column - cut,
        })
    }
}

/// What is wrong at a place: a word that is not known is told itself.
fn words_of(alloc: Global, text: &[u8], found: Found) -> Result<String, AllocError> {
    let mut words = format!(in alloc; "{}", found.fault)?;
    if matches!(found.fault, Fault::Name) {
        words.push(' ')?;
        for byte in word_at(text, found.at).iter().take(SHOWN) {
            words.push(shown(*byte))?;
        }
    }
    Ok(words)
}

/// The refusal of a file's text by a question, under the limits that the service took.
pub fn refused_text(
    alloc: Global,
    file: &str,
    text: &[u8],
    question: Refusal,
    limits: Limits,
) -> Result<RefusedText, AllocError> {
    let found = find(alloc, text, question, limits)?;
    let (place, words) = match found {
        Some(found) => (
            Some(Place::of(alloc, text, found.at)?),
            words_of(alloc, text, found)?,
        ),
        None => (None, String::from_str(alloc, question.words())?),
    };
    Ok(RefusedText {
        file: String::from_str(alloc, file)?,
        place,
        words,
        number: question.number(),
        advice: advice(text, question, found.map(|found| found.at)),
    })
}

/// A refusal with no place, in words of the caller's.
pub fn refused_in_words(
    alloc: Global,
    file: &str,
    question: Refusal,
    words: String,
    text: &[u8],
) -> Result<RefusedText, AllocError> {
    Ok(RefusedText {
        file: String::from_str(alloc, file)?,
        place: None,
        words,
        number: question.number(),
        advice: advice(text, question, None),
    })
}
