//! Bits of input and output values in words: bits as they come, or a number for each value in hexadecimal digits.

use crate::failure::ListError;
use crate::numbers::total;
use std::alloc::{AllocError, Global};

/// How values are written.
#[derive(Clone, Copy, Debug, PartialEq, Eq)]
pub enum Notation {
    /// a 0 or 1 for each bit, the first bit first
    Bits,
    /// `0x` and hexadecimal digits for each value, its last bit highest, parted by commas
    Hexadecimal,
}

/// The bits of a list of values, and how they are written.
#[derive(Debug, Drop)]
pub struct Values {
    /// a 0 or 1 for each bit
    pub bits: Vec<u8>,
    /// hexadecimal where any value is
    pub notation: Notation,
}

fn no_value(alloc: Global, word: &str) -> ListError {
    match String::from_str(alloc, word) {
        Ok(word) => ListError::Value(word),
        Err(_) => ListError::Memory,
    }
}

fn too_wide(alloc: Global, word: &str, value: usize, width: usize) -> ListError {
    match String::from_str(alloc, word) {
        Ok(text) => ListError::TooWide { text, value, width },
        Err(_) => ListError::Memory,
    }
}

/// What a hexadecimal digit stands for.
fn nibble(digit: u8) -> Option<u8> {
    match digit {
        b'0'..=b'9' => Some(digit - b'0'),
        b'a'..=b'f' => Some(digit - b'a' + 10),
        b'A'..=b'F' => Some(digit - b'A' + 10),
        _ => None,
    }
}

/// The bit at a place of a number in hexadecimal digits, 0 past its first digit.
fn bit_at(digits: &[u8], place: usize) -> u8 {
    let back = place / 4;
    if digits.len() <= back {
        return 0;
    }
    let digit = digits[digits.len() - 1 - back];
    let shift = (place % 4) as u32;
    nibble(digit).unwrap_or(0) >> shift & 1
}

/// Whether the digits have a one at a place from `width` on.
fn is_wider(digits: &[u8], width: usize) -> bool {
    let places = digits.len().saturating_mul(4);
    for place in width..places {
        if bit_at(digits, place) == 1 {
            return true;
        }
    }
    false
}

/// The bits of a number in hexadecimal digits, the lowest first.
fn push_number(bits: &mut Vec<u8>, digits: &[u8], width: usize) -> Result<(), AllocError> {
    for place in 0..width {
        bits.push(bit_at(digits, place))?;
    }
    Ok(())
}

/// Bits as they are written.
fn push_bits(alloc: Global, bits: &mut Vec<u8>, word: &str) -> Result<(), ListError> {
    for byte in word.bytes() {
        match byte {
            b'0' => bits.push(0).map_err(AllocError::from)?,
            b'1' => bits.push(1).map_err(AllocError::from)?,
            _ => return Err(no_value(alloc, word)),
        }
    }
    Ok(())
}

/// Whether each byte is a hexadecimal digit, and there is one.
fn are_digits(digits: &[u8]) -> bool {
    !digits.is_empty() && digits.iter().all(|digit| nibble(*digit).is_some())
}

fn push_hexadecimal(
    alloc: Global,
    bits: &mut Vec<u8>,
    word: &str,
    digits: &str,
    value: usize,
    widths: &[u32],
) -> Result<(), ListError> {
    if !are_digits(digits.as_bytes()) {
        return Err(no_value(alloc, word));
    }
    if widths.len() <= value {
        return Err(ListError::NoValue {
            value,
            values: widths.len(),
        });
    }
    let width = widths[value] as usize;
    if is_wider(digits.as_bytes(), width) {
        return Err(too_wide(alloc, word, value, width));
    }
    push_number(bits, digits.as_bytes(), width)?;
    Ok(())
}

/// The bits of values of these widths in a text: words parted by commas, each bits as they come or, with `0x`, the
/// number of a value. `what` says in a refusal what is counted, and `side` of what.
pub fn parse(
    alloc: Global,
    text: &str,
    widths: &[u32],
    what: &'static str,
    side: &'static str,
) -> Result<Values, ListError> {
    let mut bits = Vec::new(alloc);
    let mut notation = Notation::Bits;
    for (value, part) in text.split(',').enumerate() {
        let word = part.trim();
        match word.strip_prefix("0x") {
            Some(digits) => {
                notation = Notation::Hexadecimal;
                push_hexadecimal(alloc, &mut bits, word, digits, value, widths)?;
            }
            None => push_bits(alloc, &mut bits, word)?,
        }
    }
    if bits.len() != total(widths) {
        return Err(ListError::Count {
            what,
            found: bits.len(),
            wanted: total(widths),
            bits: side,
        });
    }
    Ok(Values { bits, notation })
}

/// The hexadecimal digit of four bits from a place on, the lowest first; bits past the end are 0.
fn digit_of(bits: &[u8], place: usize) -> char {
    let mut sum = 0u32;
    for step in 0..4usize {
        let at = place.saturating_add(step);
        if at < bits.len() && bits[at] == 1 {
            sum |= 1 << step as u32;
        }
    }
    char::from_digit(sum, 16).unwrap_or('0')
}

fn write_number(text: &mut String, bits: &[u8]) -> Result<(), AllocError> {
    text.push_str("0x")?;
    let digits = bits.len().saturating_add(3) / 4;
    for step in 0..digits {
        let place = (digits - 1 - step).saturating_mul(4);
        text.push(digit_of(bits, place))?;
    }
    Ok(())
}

fn write_bits(text: &mut String, bits: &[u8]) -> Result<(), AllocError> {
    for bit in bits {
        text.push(if *bit == 0 { '0' } else { '1' })?;
    }
    Ok(())
}

/// Bits in a notation: as they come, or each value's number in hexadecimal digits, parted by commas.
pub fn write(
    text: &mut String,
    bits: &[u8],
    widths: &[u32],
    notation: Notation,
) -> Result<(), AllocError> {
    if notation == Notation::Bits {
        return write_bits(text, bits);
    }
    let mut rest = bits;
    for (value, width) in widths.iter().enumerate() {
        if 0 < value {
            text.push_str(",")?;
        }
        let (own, others) = rest.split_at((*width as usize).min(rest.len()));
        write_number(text, own)?;
        rest = others;
    }
    Ok(())
}
