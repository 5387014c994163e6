//! The twins of the source wires.

use netlist::{Refusal, Sizes};
use std::alloc::{AllocError, Global};

/// For each source wire the masked wire that stands for it, and the code of its mask.
#[derive(Debug, Drop)]
pub struct TwinLists {
    /// the masked wire of each source wire
    pub wires: Vec<u32>,
    /// its code
    pub codes: Vec<u8>,
}

fn twins_within(
    alloc: Global,
    text: &[u8],
    codes: &[u8],
    sizes: Sizes,
) -> Result<Result<TwinLists, Refusal>, AllocError> {
    let table = sizes.source_limits().table;
    let mut operands = vec![in alloc; 0u64; table]?;
    let mut results = vec![in alloc; 0u64; table]?;
    let mut marks = vec![in alloc; 0u8; table]?;
    let mut wires = vec![in alloc; 0u32; table]?;
    let mut wire_codes = vec![in alloc; 0u8; table]?;
    let answer = mask::twins::twins(
        text,
        codes,
        wires.as_mut_slice(),
        wire_codes.as_mut_slice(),
        operands.as_mut_slice(),
        results.as_mut_slice(),
        marks.as_mut_slice(),
        sizes,
    );
    match answer {
        Ok(count) => {
            wires.truncate(count);
            wire_codes.truncate(count);
            Ok(Ok(TwinLists {
                wires,
                codes: wire_codes,
            }))
        }
        Err(question) => Ok(Err(question)),
    }
}

/// The twins of a source's wires in the netlist that Mask writes under these input codes. Refused as Twins is
/// (docs/RULES.md, Questions).
pub fn twins(
    alloc: Global,
    text: &[u8],
    codes: &[u8],
) -> Result<Result<TwinLists, Refusal>, AllocError> {
    match twins_within(alloc, text, codes, Sizes::Standard)? {
        Err(Refusal::Length | Refusal::Limits) => twins_within(alloc, text, codes, Sizes::Whole),
        answer => Ok(answer),
    }
}
