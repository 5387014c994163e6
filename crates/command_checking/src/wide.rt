//! The check of netlists with many inputs.

ghost use Rattle.std.specs.Prelude.{IfOk};
ghost use Rattle.command_checking.specs.Says.{WideSays};

use check_wide::judge::CheckedWide;
use netlist::{Refusal, Sizes};
use std::alloc::{AllocError, Global};

/// The tables of a call.
#[derive(Drop)]
struct Tables {
    operands: Vec<u64>,
    results: Vec<u64>,
    marks: Vec<u8>,
    words: Vec<u64>,
    base: Vec<u64>,
    bases: Vec<u64>,
    set0: Vec<u64>,
    set1: Vec<u64>,
    set2: Vec<u64>,
    set3: Vec<u64>,
    paints: Vec<u8>,
}

impl Tables {
    fn new(alloc: Global, entries: usize) -> Result<Self, AllocError> {
        Ok(Tables {
            operands: vec![in alloc; 0u64; entries]?,
            results: vec![in alloc; 0u64; entries]?,
            marks: vec![in alloc; 0u8; entries]?,
            words: vec![in alloc; 0u64; entries]?,
            base: vec![in alloc; 0u64; entries]?,
            bases: vec![in alloc; 0u64; entries]?,
            set0: vec![in alloc; 0u64; entries]?,
            set1: vec![in alloc; 0u64; entries]?,
            set2: vec![in alloc; 0u64; entries]?,
            set3: vec![in alloc; 0u64; entries]?,
            paints: vec![in alloc; 0u8; entries]?,
        })
    }
}

fn check_wide_within(
    alloc: Global,
    text: &[u8],
    codes: &[u8],
    pairs: &[u32],
    sizes: Sizes,
) -> Result<CheckedWide, AllocError>
    ensures { IfOk result (λ answer. IfOk answer (WideSays text.now codes.now pairs.now)) }
{
    let mut tables = Tables::new(alloc, sizes.masked_limits().table)?;
    let answer = check_wide::check_wide(
        text,
        codes,
        pairs,
        tables.operands.as_mut_slice(),
        tables.results.as_mut_slice(),
        tables.marks.as_mut_slice(),
        tables.words.as_mut_slice(),
        tables.base.as_mut_slice(),
        tables.bases.as_mut_slice(),
        tables.set0.as_mut_slice(),
        tables.set1.as_mut_slice(),
        tables.set2.as_mut_slice(),
        tables.set3.as_mut_slice(),
        tables.paints.as_mut_slice(),
        sizes,
    );
    Ok(answer)
}

/// What the check of many inputs says of a netlist under input codes, where pair j is entries 2j and 2j + 1 of
/// `pairs`. Refused as that check is (docs/RULES.md, Questions; Many inputs).
pub fn check_wide(
    alloc: Global,
    text: &[u8],
    codes: &[u8],
    pairs: &[u32],
) -> Result<CheckedWide, AllocError>
    ensures { IfOk result (λ answer. IfOk answer (WideSays text.now codes.now pairs.now)) }
{
    match check_wide_within(alloc, text, codes, pairs, Sizes::Standard)? {
        Err(Refusal::Length | Refusal::Limits) => check_wide_within(
            alloc,
            text,
            codes,
            pairs,
            Sizes::Whole,
        ),
        answer => Ok(answer),
    }
}
