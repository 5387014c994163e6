//! Join.

use netlist::{Refusal, Sizes};
use std::alloc::{AllocError, Global};

/// The codes that Join takes: of the first block's inputs and outputs, and of the second's inputs.
#[derive(Clone, Copy)]
pub struct SeamCodes<'a> {
    /// a code for each input bit of the first block
    pub inputs: &'a [u8],
    /// a code for each of its output bits
    pub outputs: &'a [u8],
    /// a code for each input bit of the second block
    pub second: &'a [u8],
}

fn join_within(
    alloc: Global,
    first: &[u8],
    second: &[u8],
    codes: SeamCodes,
    sizes: Sizes,
) -> Result<Result<Vec<u8>, Refusal>, AllocError> {
    let limits = sizes.masked_limits();
    let table = limits.table;
    let mut operands = vec![in alloc; 0u64; table]?;
    let mut results = vec![in alloc; 0u64; table]?;
    let mut marks = vec![in alloc; 0u8; table]?;
    let mut words = vec![in alloc; 0u64; table]?;
    let mut base = vec![in alloc; 0u64; table]?;
    let mut out = vec![in alloc; 0u8; limits.text]?;
    let answer = join::join(
        first,
        second,
        codes.inputs,
        codes.outputs,
        codes.second,
        out.as_mut_slice(),
        operands.as_mut_slice(),
        results.as_mut_slice(),
        marks.as_mut_slice(),
        words.as_mut_slice(),
        base.as_mut_slice(),
        sizes,
    );
    match answer {
        Ok(size) => {
            out.truncate(size);
            Ok(Ok(out))
        }
        Err(question) => Ok(Err(question)),
    }
}

/// One netlist of two masked blocks, the outputs of the first going into the inputs of the second. Refused as Join is
/// (docs/RULES.md, Questions).
pub fn join(
    alloc: Global,
    first: &[u8],
    second: &[u8],
    codes: SeamCodes,
) -> Result<Result<Vec<u8>, Refusal>, AllocError> {
    match join_within(alloc, first, second, codes, Sizes::Standard)? {
        Err(Refusal::Length | Refusal::Limits | Refusal::Room) => join_within(
            alloc,
            first,
            second,
            codes,
            Sizes::Whole,
        ),
        answer => Ok(answer),
    }
}
