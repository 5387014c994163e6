//! Pairs of wires, as a register holds them one after the other: two wire numbers a line.

use crate::failure::ListError;
use crate::numbers::number;
use std::alloc::{AllocError, Global};

/// The two numbers of a line, or none where it has other words.
fn pair(line: &str) -> Option<(u32, u32)> {
    let mut words = line.split_whitespace();
    let first = number(words.next()?)?;
    let second = number(words.next()?)?;
    if words.next().is_some() {
        return None;
    }
    Some((u32::try_from(first).ok()?, u32::try_from(second).ok()?))
}

/// What of a line is no comment: what stands before `#`.
pub fn without_comment(line: &str) -> &str {
    match line.split_once('#') {
        Some((words, _)) => words,
        None => line,
    }
}

/// The wires of a file of pairs, two entries for each pair. Blank lines are passed over, and so is what follows `#`.
pub fn parse(alloc: Global, text: &str) -> Result<Vec<u32>, ListError> {
    let mut wires = Vec::new(alloc);
    for (index, line) in text.lines().enumerate() {
        let words = without_comment(line);
        if words.trim().is_empty() {
            continue;
        }
        let Some((first, second)) = pair(words) else {
            return Err(ListError::Pair(index.saturating_add(1)));
        };
        wires.push(first).map_err(AllocError::from)?;
        wires.push(second).map_err(AllocError::from)?;
    }
    Ok(wires)
}
