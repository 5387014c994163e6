//! A file of vectors: input values a line, and if wanted `=` and the output values that are expected; run sixty-four
//! at a time.

use command_answer::failure::Failure;
use command_lists::failure::ListError;
use command_lists::pairs::without_comment;
use command_lists::values::{Notation, Values, parse};
use command_netlists::shape::Shape;
use std::alloc::{AllocError, Global};

/// One vector.
#[derive(Debug, Drop)]
pub struct Vector {
    /// its line in the file, from 1
    pub line: usize,
    /// a 0 or 1 for each input bit
    pub inputs: Vec<u8>,
    /// a 0 or 1 for each output bit that is expected
    pub expected: Option<Vec<u8>>,
    /// how its values are written
    pub notation: Notation,
}

/// The values of a vector, before it is known in which line they stand.
fn of_words(alloc: Global, words: &str, line: usize, shape: &Shape) -> Result<Vector, ListError> {
    let (given, wanted) = match words.split_once('=') {
        Some((given, wanted)) => (given, Some(wanted)),
        None => (words, None),
    };
    let Values { bits, notation } = parse(
        alloc,
        given.trim(),
        shape.inputs.as_slice(),
        "bits",
        "input bits",
    )?;
    let expected = match wanted {
        Some(wanted) => {
            let Values { bits, notation: _ } = parse(
                alloc,
                wanted.trim(),
                shape.outputs.as_slice(),
                "bits",
                "output bits",
            )?;
            Some(bits)
        }
        None => None,
    };
    Ok(Vector {
        line,
        inputs: bits,
        expected,
        notation,
    })
}

/// The failure of a line of a file.
fn failed(alloc: Global, name: &str, line: usize, error: ListError) -> Failure {
    match format!(in alloc; "{name}:{line}") {
        Ok(place) => Failure::List(place, error),
        Err(_) => Failure::Memory,
    }
}

/// The vectors of a file, one a line; blank lines and what follows `#` are passed over.
pub fn vectors(
    alloc: Global,
    name: &str,
    text: &str,
    shape: &Shape,
) -> Result<Vec<Vector>, Failure> {
    let mut list = Vec::new(alloc);
    for (index, line) in text.lines().enumerate() {
        let words = without_comment(line).trim();
        if words.is_empty() {
            continue;
        }
        let number = index.saturating_add(1);
        match of_words(alloc, words, number, shape) {
            Ok(vector) => list.push(vector)?,
            Err(error) => return Err(failed(alloc, name, number, error)),
        }
    }
    Ok(list)
}

/// Bit j of each word is the bit of vector j, of at most sixty-four vectors.
pub fn words_of(alloc: Global, vectors: &[Vector], bits: usize) -> Result<Vec<u64>, AllocError> {
    let mut words = vec![in alloc; 0u64; bits]?;
    for (place, vector) in vectors.iter().take(64).enumerate() {
        let shift = place as u32;
        for (word, bit) in words.iter_mut().zip(vector.inputs.iter()) {
            *word |= u64::from(*bit & 1) << (shift % 64);
        }
    }
    Ok(words)
}

/// The bits of one setting of words.
pub fn bits_of(alloc: Global, words: &[u64], place: usize) -> Result<Vec<u8>, AllocError> {
    let shift = (place % 64) as u32;
    let mut bits = Vec::new(alloc);
    for word in words {
        bits.push((word >> shift & 1) as u8)?;
    }
    Ok(bits)
}
