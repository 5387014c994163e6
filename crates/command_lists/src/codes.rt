//! Mask codes in words: one digit for all bits, a digit for each, by value, `256*1`.

ghost use Rattle.std.specs.Prelude.{◌≡◌, IfOk, IsOk, vec_len};
ghost use Rattle.command_lists.specs.Numbers.{total_of};

use crate::failure::ListError;
use crate::numbers::{number, total};
use std::alloc::{AllocError, AllocFailed, Global};

/// The codes that a text gives, before it is known how many bits they are for.
#[derive(Debug, Drop)]
pub enum Codes {
    /// one code for all bits
    Each(u8),
    /// a code for each bit
    Bits(Vec<u8>),
    /// for each value that is named its codes
    Values(Vec<ValueCodes>),
}

/// The codes of the bits of one value: one for all of them, or one for each.
#[derive(Debug, Drop)]
pub struct ValueCodes {
    /// the value's number, from 0
    pub value: usize,
    /// one code, or one for each bit
    pub codes: Vec<u8>,
}

/// What the bits are whose codes are counted, in words.
#[derive(Clone, Copy, Debug)]
pub enum Side {
    /// bits of input values
    Inputs,
    /// bits of output values
    Outputs,
}

impl Side {
    fn words(self) -> &'static str {
        match self {
            Side::Inputs => "input bits",
            Side::Outputs => "output bits",
        }
    }
}

fn no_codes(alloc: Global, word: &str) -> ListError {
    match String::from_str(alloc, word) {
        Ok(word) => ListError::Codes(word),
        Err(_) => ListError::Memory,
    }
}

/// The code that a word of one digit stands for.
fn digit(word: &str) -> Option<u8> {
    match word.as_bytes() {
        [byte] if byte.is_ascii_digit() => Some(byte.wrapping_sub(b'0')),
        _ => None,
    }
}

fn push_digits(codes: &mut Vec<u8>, word: &str) -> Result<bool, AllocError> {
    for byte in word.bytes() {
        if !byte.is_ascii_digit() {
            return Ok(false);
        }
        codes.push(byte.wrapping_sub(b'0'))?;
    }
    Ok(true)
}

fn push_repeated(codes: &mut Vec<u8>, count: &str, code: &str) -> Result<bool, AllocError> {
    let (Some(count), Some(code)) = (number(count), digit(code)) else {
        return Ok(false);
    };
    for _ in 0..count {
        codes.push(code)?;
    }
    Ok(true)
}

/// A word of a list: digits, or a number, `*` and the code that is repeated so often.
fn push_word(codes: &mut Vec<u8>, word: &str) -> Result<bool, AllocError> {
    match word.split_once('*') {
        Some((count, code)) => push_repeated(codes, count, code),
        None => push_digits(codes, word),
    }
}

/// The words of a list, parted by commas, blanks or line ends.
fn sequence(alloc: Global, text: &str) -> Result<Vec<u8>, ListError> {
    let mut codes = Vec::new(alloc);
    for part in text.split(',') {
        for word in part.split_whitespace() {
            if !push_word(&mut codes, word)? {
                return Err(no_codes(alloc, word));
            }
        }
    }
    Ok(codes)
}

fn of_value(alloc: Global, word: &str) -> Result<ValueCodes, ListError> {
    let Some((name, list)) = word.split_once('=') else {
        return Err(no_codes(alloc, word));
    };
    let Some(value) = number(name) else {
        return Err(no_codes(alloc, word));
    };
    let codes = sequence(alloc, list)?;
    if codes.is_empty() {
        return Err(no_codes(alloc, word));
    }
    Ok(ValueCodes { value, codes })
}

fn by_value(alloc: Global, text: &str) -> Result<Codes, ListError> {
    let mut values = Vec::new(alloc);
    for part in text.split(',') {
        for word in part.split_whitespace() {
            let codes = of_value(alloc, word)?;
            values.push(codes).map_err(AllocError::from)?;
        }
    }
    Ok(Codes::Values(values))
}

/// The codes that a text gives: one digit for all bits, a digit for each, words with `=` by value; `N*C` stands for N
/// times the code C.
pub fn parse(alloc: Global, text: &str) -> Result<Codes, ListError> {
    if text.contains('=') {
        return by_value(alloc, text);
    }
    if let Some(code) = digit(text.trim()) {
        return Ok(Codes::Each(code));
    }
    Ok(Codes::Bits(sequence(alloc, text)?))
}

/// The codes of one value's bits: its one code for all, or its codes, one for each.
fn fill_value(codes: &mut Vec<u8>, entry: &ValueCodes, width: usize) -> Result<(), ListError> {
    if let [code] = entry.codes.as_slice() {
        for _ in 0..width {
            codes.push(*code).map_err(AllocError::from)?;
        }
        return Ok(());
    }
    if entry.codes.len() != width {
        return Err(ListError::Width {
            value: entry.value,
            found: entry.codes.len(),
            width,
        });
    }
    for code in entry.codes.as_slice() {
        codes.push(*code).map_err(AllocError::from)?;
    }
    Ok(())
}

/// How many entries are for a value.
fn times(entries: &[ValueCodes], value: usize) -> usize {
    let mut found = 0usize;
    for entry in entries {
        if entry.value == value {
            found = found.saturating_add(1);
        }
    }
    found
}

/// The first entry for a value.
fn entry_for(entries: &[ValueCodes], value: usize) -> Option<&ValueCodes> {
    entries.iter().find(|entry| entry.value == value)
}

fn fill_values(
    alloc: Global,
    entries: &[ValueCodes],
    widths: &[u32],
) -> Result<Vec<u8>, ListError> {
    for entry in entries {
        if widths.len() <= entry.value {
            return Err(ListError::NoValue {
                value: entry.value,
                values: widths.len(),
            });
        }
    }
    let mut codes = Vec::new(alloc);
    for (value, width) in widths.iter().enumerate() {
        let found = times(entries, value);
        match entry_for(entries, value) {
            Some(entry) if found == 1 => fill_value(&mut codes, entry, *width as usize)?,
            _ => {
                return Err(ListError::Times {
                    value,
                    times: found,
                    values: widths.len(),
                });
            }
        }
    }
    Ok(codes)
}

/// A list as long as the bits, or the error that says how long it is.
fn of_length(codes: Vec<u8>, bits: usize, side: Side) -> Result<Vec<u8>, ListError>
    ensures length { IfOk result (λ list. vec_len list ≡ bits) }
    ensures same { IfOk result (λ list. list.items ≡ codes.items) }
    ensures count { vec_len codes ≡ bits → IsOk result }
{
    if codes.len() != bits {
        return Err(ListError::Count {
            what: "codes",
            found: codes.len(),
            wanted: bits,
            bits: side.words(),
        });
    }
    Ok(codes)
}

/// A code for each bit of values of these widths. Refused where codes and bits are not as many, and where a list by
/// value leaves a value out, names it twice, or names one that is not there.
pub fn resolve(
    alloc: Global,
    codes: &Codes,
    widths: &[u32],
    side: Side,
) -> Result<Vec<u8>, ListError>
    ensures { IfOk result (λ list. vec_len list ≡ total_of widths.now) }
{
    let bits = total(widths);
    let list = match codes {
        Codes::Each(code) => vec![in alloc; *code; bits]?,
        Codes::Bits(list) => list.as_slice().to_vec(alloc)?,
        Codes::Values(entries) => fill_values(alloc, entries.as_slice(), widths)?,
    };
    of_length(list, bits, side)
}
