//! Mask with fewer changes.

use netlist::{Refusal, Sizes};
use std::alloc::{AllocError, Global};

/// A masked netlist with the codes of its inputs and outputs, its mask changes, and the floor that no choice goes
/// below.
#[derive(Debug, Drop)]
pub struct Fewest {
    /// the netlist's text, in the written form
    pub text: Vec<u8>,
    /// a code for each input bit
    pub input_codes: Vec<u8>,
    /// a code for each output bit
    pub output_codes: Vec<u8>,
    /// how many mask changes the netlist has
    pub changes: u64,
    /// a number of changes that no choice goes below
    pub floor: u64,
}

/// The tables of a call.
#[derive(Drop)]
struct Tables {
    operands: Vec<u64>,
    results: Vec<u64>,
    wires: Vec<u32>,
    marks: Vec<u8>,
    ways: Vec<u8>,
    best: Vec<u8>,
    spans: Vec<u64>,
}

impl Tables {
    fn new(alloc: Global, entries: usize) -> Result<Self, AllocError> {
        Ok(Tables {
            operands: vec![in alloc; 0u64; entries]?,
            results: vec![in alloc; 0u64; entries]?,
            wires: vec![in alloc; 0u32; entries]?,
            marks: vec![in alloc; 0u8; entries]?,
            ways: vec![in alloc; 0u8; entries]?,
            best: vec![in alloc; 0u8; entries]?,
            spans: vec![in alloc; 0u64; entries]?,
        })
    }
}

fn mask_fewest_within(
    alloc: Global,
    text: &[u8],
    codes: &[u8],
    wanted: &[u8],
    budget: u64,
    sizes: Sizes,
) -> Result<Result<Fewest, Refusal>, AllocError> {
    let mut tables = Tables::new(alloc, sizes.source_limits().table)?;
    let mut text_out = vec![in alloc; 0u8; sizes.masked_limits().text]?;
    let mut input_codes = vec![in alloc; 0u8; codes.len()]?;
    let mut output_codes = vec![in alloc; 0u8; wanted.len()]?;
    let mut tally = [0u64; 2];
    let answer = mask_fewest::mask_fewest(
        text,
        codes,
        wanted,
        budget,
        text_out.as_mut_slice(),
        input_codes.as_mut_slice(),
        output_codes.as_mut_slice(),
        &mut tally,
        tables.operands.as_mut_slice(),
        tables.results.as_mut_slice(),
        tables.wires.as_mut_slice(),
        tables.marks.as_mut_slice(),
        tables.ways.as_mut_slice(),
        tables.best.as_mut_slice(),
        tables.spans.as_mut_slice(),
        sizes,
    );
    let [changes, floor] = tally;
    match answer {
        Ok(size) => {
            text_out.truncate(size);
            Ok(Ok(Fewest {
                text: text_out,
                input_codes,
                output_codes,
                changes,
                floor,
            }))
        }
        Err(question) => Ok(Err(question)),
    }
}

/// The masked netlist with the fewest mask changes among as many choices as the budget allows; code 4 leaves an input
/// bit's code free. Refused as Mask with fewer changes is (docs/RULES.md, Questions).
pub fn mask_fewest(
    alloc: Global,
    text: &[u8],
    codes: &[u8],
    wanted: &[u8],
    budget: u64,
) -> Result<Result<Fewest, Refusal>, AllocError> {
    match mask_fewest_within(alloc, text, codes, wanted, budget, Sizes::Standard)? {
        Err(Refusal::Length | Refusal::Limits) => {
            mask_fewest_within(alloc, text, codes, wanted, budget, Sizes::Whole)
        }
        answer => Ok(answer),
    }
}
