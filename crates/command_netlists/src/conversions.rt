//! Texts in other notations, and the written form.

use netlist::{Answer, Refusal, Sizes};
use std::alloc::{AllocError, Global};

/// A text, or the question that refuses it.
pub type Converted = Result<Vec<u8>, Refusal>;

/// Which conversion of two texts with the same tables is asked for.
#[derive(Clone, Copy, Debug, PartialEq, Eq)]
pub enum Rewriting {
    /// the written form of a netlist
    Written,
    /// from the older dialect
    FromOlder,
    /// to the older dialect
    ToOlder,
}

fn rewritten(
    which: Rewriting,
    text: &[u8],
    out: &mut [u8],
    operands: &mut [u64],
    results: &mut [u64],
    marks: &mut [u8],
    sizes: Sizes,
) -> Answer {
    match which {
        Rewriting::Written => convert::rewrite::rewrite(text, out, operands, results, marks, sizes),
        Rewriting::FromOlder => convert::from_old::from_old(
            text, out, operands, results, marks, sizes,
        ),
        Rewriting::ToOlder => convert::to_old::to_old(text, out, operands, results, marks, sizes),
    }
}

/// So many bytes of a buffer, or the question.
fn cut(mut out: Vec<u8>, answer: Answer) -> Converted {
    let size = answer?;
    out.truncate(size);
    Ok(out)
}

fn rewrite_within(
    alloc: Global,
    which: Rewriting,
    text: &[u8],
    sizes: Sizes,
) -> Result<Converted, AllocError> {
    let limits = sizes.masked_limits();
    let mut operands = vec![in alloc; 0u64; limits.table]?;
    let mut results = vec![in alloc; 0u64; limits.table]?;
    let mut marks = vec![in alloc; 0u8; limits.table]?;
    let mut out = vec![in alloc; 0u8; limits.text]?;
    let answer = rewritten(
        which,
        text,
        out.as_mut_slice(),
        operands.as_mut_slice(),
        results.as_mut_slice(),
        marks.as_mut_slice(),
        sizes,
    );
    Ok(cut(out, answer))
}

/// A netlist in its written form, from the older dialect or to it (docs/RULES.md, Written form; Older dialect).
pub fn rewrite(alloc: Global, which: Rewriting, text: &[u8]) -> Result<Converted, AllocError> {
    match rewrite_within(alloc, which, text, Sizes::Standard)? {
        Err(Refusal::Length | Refusal::Limits | Refusal::Room) => rewrite_within(
            alloc,
            which,
            text,
            Sizes::Whole,
        ),
        answer => Ok(answer),
    }
}

fn from_aiger_within(alloc: Global, text: &[u8], sizes: Sizes) -> Result<Converted, AllocError> {
    let table = sizes.source_limits().table;
    let mut operands = vec![in alloc; 0u64; table]?;
    let mut results = vec![in alloc; 0u64; table]?;
    let mut variables = vec![in alloc; 0u32; table]?;
    let mut out = vec![in alloc; 0u8; sizes.masked_limits().text]?;
    let answer = from_aiger::from_aiger(
        text,
        out.as_mut_slice(),
        operands.as_mut_slice(),
        results.as_mut_slice(),
        variables.as_mut_slice(),
        sizes,
    );
    Ok(cut(out, answer))
}

/// The netlist of an ASCII AIGER file (docs/RULES.md, AIGER). A file with too many variables for the standard limits
/// is refused by 19, so that one is asked again too.
pub fn from_aiger(alloc: Global, text: &[u8]) -> Result<Converted, AllocError> {
    match from_aiger_within(alloc, text, Sizes::Standard)? {
        Err(Refusal::Length | Refusal::Limits | Refusal::Aiger) => from_aiger_within(
            alloc,
            text,
            Sizes::Whole,
        ),
        answer => Ok(answer),
    }
}

/// The tables of equations, of which those of names have eight numbers an entry.
#[derive(Drop)]
struct NameTables {
    operands: Vec<u64>,
    results: Vec<u64>,
    heads: Vec<u64>,
    words: Vec<u64>,
    links: Vec<u64>,
    states: Vec<u32>,
    wires: Vec<u32>,
}

impl NameTables {
    fn new(alloc: Global, sizes: Sizes) -> Result<Self, AllocError> {
        let table = sizes.source_limits().table;
        let names = sizes.source_limits().table.saturating_mul(8);
        Ok(NameTables {
            operands: vec![in alloc; 0u64; table]?,
            results: vec![in alloc; 0u64; table]?,
            heads: vec![in alloc; 0u64; names]?,
            words: vec![in alloc; 0u64; names]?,
            links: vec![in alloc; 0u64; names]?,
            states: vec![in alloc; 0u32; names]?,
            wires: vec![in alloc; 0u32; names]?,
        })
    }
}

fn from_equations_within(
    alloc: Global,
    text: &[u8],
    sizes: Sizes,
) -> Result<Converted, AllocError> {
    let mut tables = NameTables::new(alloc, sizes)?;
    let mut out = vec![in alloc; 0u8; sizes.masked_limits().text]?;
    let answer = from_verilog::from_verilog(
        text,
        out.as_mut_slice(),
        tables.operands.as_mut_slice(),
        tables.results.as_mut_slice(),
        tables.heads.as_mut_slice(),
        tables.words.as_mut_slice(),
        tables.links.as_mut_slice(),
        tables.states.as_mut_slice(),
        tables.wires.as_mut_slice(),
        sizes,
    );
    Ok(cut(out, answer))
}

/// The netlist of equations in Verilog (docs/RULES.md, Equations).
pub fn from_equations(alloc: Global, text: &[u8]) -> Result<Converted, AllocError> {
    match from_equations_within(alloc, text, Sizes::Standard)? {
        Err(Refusal::Length | Refusal::Limits) => from_equations_within(alloc, text, Sizes::Whole),
        answer => Ok(answer),
    }
}
