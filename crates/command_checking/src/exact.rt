//! Check and Check with pairs: all settings of at most twelve input bits.

ghost use Rattle.std.specs.Prelude.{IfOk};
ghost use Rattle.command_checking.specs.Says.{CheckSays, PairsSay};

use check_pairs::search::PairsFound;
use checker::judge::Checked;
use netlist::{Refusal, Sizes};
use std::alloc::{AllocError, Global};

fn check_within(
    alloc: Global,
    text: &[u8],
    codes: &[u8],
    sizes: Sizes,
) -> Result<Checked, AllocError>
    ensures { IfOk result (λ answer. IfOk answer (CheckSays text.now codes.now)) }
{
    let table = sizes.masked_limits().table;
    let mut operands = vec![in alloc; 0u64; table]?;
    let mut results = vec![in alloc; 0u64; table]?;
    let mut marks = vec![in alloc; 0u8; table]?;
    let mut words = vec![in alloc; 0u64; table]?;
    let mut base = vec![in alloc; 0u64; table]?;
    let answer = checker::check(
        text,
        codes,
        operands.as_mut_slice(),
        results.as_mut_slice(),
        marks.as_mut_slice(),
        words.as_mut_slice(),
        base.as_mut_slice(),
        sizes,
    );
    Ok(answer)
}

/// What Check says of a netlist under input codes. Refused as Check is (docs/RULES.md, Questions; Leaks).
pub fn check(alloc: Global, text: &[u8], codes: &[u8]) -> Result<Checked, AllocError>
    ensures { IfOk result (λ answer. IfOk answer (CheckSays text.now codes.now)) }
{
    match check_within(alloc, text, codes, Sizes::Standard)? {
        Err(Refusal::Length | Refusal::Limits) => check_within(alloc, text, codes, Sizes::Whole),
        answer => Ok(answer),
    }
}

/// What Check with pairs says.
pub type CheckedPairs = Result<PairsFound, Refusal>;

fn check_pairs_within(
    alloc: Global,
    text: &[u8],
    codes: &[u8],
    pairs: &[u32],
    sizes: Sizes,
) -> Result<CheckedPairs, AllocError>
    ensures { IfOk result (λ answer. IfOk answer (PairsSay text.now codes.now pairs.now)) }
{
    let table = sizes.masked_limits().table;
    let mut operands = vec![in alloc; 0u64; table]?;
    let mut results = vec![in alloc; 0u64; table]?;
    let mut marks = vec![in alloc; 0u8; table]?;
    let mut words = vec![in alloc; 0u64; table]?;
    let mut base = vec![in alloc; 0u64; table]?;
    let mut bases = vec![in alloc; 0u64; table]?;
    let answer = check_pairs::check_pairs(
        text,
        codes,
        pairs,
        operands.as_mut_slice(),
        results.as_mut_slice(),
        marks.as_mut_slice(),
        words.as_mut_slice(),
        base.as_mut_slice(),
        bases.as_mut_slice(),
        sizes,
    );
    Ok(answer)
}

/// What Check with pairs says of a netlist under input codes, where pair j is entries 2j and 2j + 1 of `pairs`.
/// Refused as Check with pairs is (docs/RULES.md, Questions; Pairs).
pub fn check_pairs(
    alloc: Global,
    text: &[u8],
    codes: &[u8],
    pairs: &[u32],
) -> Result<CheckedPairs, AllocError>
    ensures { IfOk result (λ answer. IfOk answer (PairsSay text.now codes.now pairs.now)) }
{
    match check_pairs_within(alloc, text, codes, pairs, Sizes::Standard)? {
        Err(Refusal::Length | Refusal::Limits) => check_pairs_within(
            alloc,
            text,
            codes,
            pairs,
            Sizes::Whole,
        ),
        answer => Ok(answer),
    }
}
