//! Mask.

ghost use Rattle.std.specs.Prelude.{IfOk};
ghost use Rattle.mask.specs.Promise.{Masks};
ghost use Rattle.command_masking.specs.Answers.{IsMasked};

use netlist::{Refusal, Sizes};
use std::alloc::{AllocError, Global};

/// A masked netlist, and the code of each of its output bits.
#[derive(Debug, Drop)]
pub struct Masked {
    /// the netlist's text, in the written form
    pub text: Vec<u8>,
    /// a code for each output bit
    pub codes: Vec<u8>,
}

/// What Mask writes under the limits of a size, or the question that refuses it.
fn mask_within(
    alloc: Global,
    text: &[u8],
    codes: &[u8],
    wanted: &[u8],
    sizes: Sizes,
) -> Result<Result<Masked, Refusal>, AllocError>
    ensures { IfOk result (λ answer. IfOk answer
        (λ masked. Masks sizes text.now codes.now wanted.now masked.text.items masked.codes.items)) }
{
    let table = sizes.source_limits().table;
    let mut operands = vec![in alloc; 0u64; table]?;
    let mut results = vec![in alloc; 0u64; table]?;
    let mut wires = vec![in alloc; 0u32; table]?;
    let mut marks = vec![in alloc; 0u8; table]?;
    let mut out_codes = vec![in alloc; 0u8; wanted.len()]?;
    let mut out = vec![in alloc; 0u8; sizes.masked_limits().text]?;
    let answer = mask::mask(
        text,
        codes,
        wanted,
        out.as_mut_slice(),
        out_codes.as_mut_slice(),
        operands.as_mut_slice(),
        results.as_mut_slice(),
        wires.as_mut_slice(),
        marks.as_mut_slice(),
        sizes,
    );
    match answer {
        Ok(size) => {
            out.truncate(size);
            Ok(Ok(Masked {
                text: out,
                codes: out_codes,
            }))
        }
        Err(question) => Ok(Err(question)),
    }
}

/// What Mask writes for a source, a code for each input bit and a wanted code for each output bit: under the standard
/// limits, or where those are too small under the limits for whole ciphers. Refused as Mask is (docs/RULES.md,
/// Questions).
pub fn mask(
    alloc: Global,
    text: &[u8],
    codes: &[u8],
    wanted: &[u8],
) -> Result<Result<Masked, Refusal>, AllocError>
    ensures { IfOk result (λ answer. IfOk answer
        (λ masked. IsMasked text.now codes.now wanted.now masked.text.items masked.codes.items)) }
{
    match mask_within(alloc, text, codes, wanted, Sizes::Standard)? {
        Err(Refusal::Length | Refusal::Limits) => mask_within(
            alloc,
            text,
            codes,
            wanted,
            Sizes::Whole,
        ),
        answer => Ok(answer),
    }
}
