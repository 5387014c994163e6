//! The certifier.

ghost use Rattle.std.specs.Prelude.{IfOk};
ghost use Rattle.command_checking.specs.Says.{Says};

use crate::verdict::{Leak, Verdict};
use netlist::{Refusal, Sizes};
use std::alloc::{AllocError, Global};

/// What the certifier says of a netlist, or the question that refuses it.
pub type Certified = Result<Verdict, Refusal>;

/// The tables of a call; the records have fifteen entries for each wire.
#[derive(Drop)]
struct Tables {
    operands: Vec<u64>,
    results: Vec<u64>,
    marks: Vec<u8>,
    words: Vec<u64>,
    base: Vec<u64>,
    records: Vec<u64>,
}

impl Tables {
    fn new(alloc: Global, entries: usize) -> Result<Self, AllocError> {
        Ok(Tables {
            operands: vec![in alloc; 0u64; entries]?,
            results: vec![in alloc; 0u64; entries]?,
            marks: vec![in alloc; 0u8; entries]?,
            words: vec![in alloc; 0u64; entries]?,
            base: vec![in alloc; 0u64; entries]?,
            records: vec![in alloc; 0u64; entries.saturating_mul(15)]?,
        })
    }
}

/// The first entries of a list in 32 bits, as the numbers of input bits are.
fn narrowed(alloc: Global, list: &[u64], count: u64) -> Result<Vec<u32>, AllocError> {
    let mut narrow = Vec::new(alloc);
    for (index, entry) in list.iter().enumerate() {
        if (index as u64) < count {
            narrow.push(u32::try_from(*entry).unwrap_or(u32::MAX))?;
        }
    }
    Ok(narrow)
}

fn certify_within(
    alloc: Global,
    text: &[u8],
    codes: &[u8],
    sizes: Sizes,
) -> Result<Certified, AllocError>
    ensures { IfOk result (λ answer. IfOk answer (Says text.now codes.now)) }
{
    let mut tables = Tables::new(alloc, sizes.masked_limits().table)?;
    let mut told = [0u64; 4];
    let mut ones = vec![in alloc; 0u64; codes.len()]?;
    let answer = certify::certify(
        text,
        codes,
        &mut told,
        ones.as_mut_slice(),
        tables.operands.as_mut_slice(),
        tables.results.as_mut_slice(),
        tables.marks.as_mut_slice(),
        tables.words.as_mut_slice(),
        tables.base.as_mut_slice(),
        tables.records.as_mut_slice(),
        sizes,
    );
    let [wire, count, base, own] = told;
    match answer {
        Ok(certify::judge::Verdict::Clean) => Ok(Ok(Verdict::Clean)),
        Ok(certify::judge::Verdict::Leak) => Ok(Ok(Verdict::Leak(Leak {
            wire: wire as usize,
            ones: narrowed(alloc, ones.as_slice(), count)?,
            base,
            own,
            is_lowest: false,
        }))),
        Ok(certify::judge::Verdict::Unknown) => Ok(Ok(Verdict::Unknown(wire as usize))),
        Err(question) => Ok(Err(question)),
    }
}

/// What the certifier says of a netlist under input codes. Refused as Certify is (docs/RULES.md, Questions; Certify).
pub fn certify(alloc: Global, text: &[u8], codes: &[u8]) -> Result<Certified, AllocError>
    ensures { IfOk result (λ answer. IfOk answer (Says text.now codes.now)) }
{
    match certify_within(alloc, text, codes, Sizes::Standard)? {
        Err(Refusal::Length | Refusal::Limits) => certify_within(alloc, text, codes, Sizes::Whole),
        answer => Ok(answer),
    }
}
