//! Run, with working tables of its own on the heap, under the limits that a netlist needs: one setting, or sixty-four
//! at a time.
#![tactic(auto)]

use netlist::{Refusal, Sizes};
use std::alloc::{AllocError, Global};

/// The tables of a call.
#[derive(Drop)]
struct Tables {
    operands: Vec<u64>,
    results: Vec<u64>,
    marks: Vec<u8>,
    words: Vec<u64>,
}

impl Tables {
    fn new(alloc: Global, entries: usize) -> Result<Self, AllocError> {
        Ok(Tables {
            operands: vec![in alloc; 0u64; entries]?,
            results: vec![in alloc; 0u64; entries]?,
            marks: vec![in alloc; 0u8; entries]?,
            words: vec![in alloc; 0u64; entries]?,
        })
    }
}

fn run_within(
    alloc: Global,
    text: &[u8],
    bits: &[u8],
    outputs: usize,
    sizes: Sizes,
) -> Result<Result<Vec<u8>, Refusal>, AllocError> {
    let mut tables = Tables::new(alloc, sizes.masked_limits().table)?;
    let mut out = vec![in alloc; 0u8; outputs]?;
    let answer = run::run(
        text,
        bits,
        out.as_mut_slice(),
        tables.operands.as_mut_slice(),
        tables.results.as_mut_slice(),
        tables.marks.as_mut_slice(),
        tables.words.as_mut_slice(),
        sizes,
    );
    match answer {
        Ok(count) => {
            out.truncate(count);
            Ok(Ok(out))
        }
        Err(question) => Ok(Err(question)),
    }
}

/// The output bits of a netlist on a 0 or 1 for each input bit, where it has at most so many output bits. Refused as
/// Run is (docs/RULES.md, Questions).
pub fn run(
    alloc: Global,
    text: &[u8],
    bits: &[u8],
    outputs: usize,
) -> Result<Result<Vec<u8>, Refusal>, AllocError> {
    match run_within(alloc, text, bits, outputs, Sizes::Standard)? {
        Err(Refusal::Length | Refusal::Limits) => run_within(
            alloc,
            text,
            bits,
            outputs,
            Sizes::Whole,
        ),
        answer => Ok(answer),
    }
}

fn run64_within(
    alloc: Global,
    text: &[u8],
    words: &[u64],
    outputs: usize,
    sizes: Sizes,
) -> Result<Result<Vec<u64>, Refusal>, AllocError> {
    let mut tables = Tables::new(alloc, sizes.masked_limits().table)?;
    let mut out = vec![in alloc; 0u64; outputs]?;
    let answer = run::sixty_four::run64(
        text,
        words,
        out.as_mut_slice(),
        tables.operands.as_mut_slice(),
        tables.results.as_mut_slice(),
        tables.marks.as_mut_slice(),
        tables.words.as_mut_slice(),
        sizes,
    );
    match answer {
        Ok(count) => {
            out.truncate(count);
            Ok(Ok(out))
        }
        Err(question) => Ok(Err(question)),
    }
}

/// The output words of a netlist on a word for each input bit, bit j of every word for setting j, where it has at
/// most so many output bits. Refused as sixty-four runs are (docs/RULES.md, Questions).
pub fn run64(
    alloc: Global,
    text: &[u8],
    words: &[u64],
    outputs: usize,
) -> Result<Result<Vec<u64>, Refusal>, AllocError> {
    match run64_within(alloc, text, words, outputs, Sizes::Standard)? {
        Err(Refusal::Length | Refusal::Limits) => run64_within(
            alloc,
            text,
            words,
            outputs,
            Sizes::Whole,
        ),
        answer => Ok(answer),
    }
}
