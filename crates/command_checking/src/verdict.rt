//! What a check found.

ghost use Rattle.std.specs.Prelude.{ℕ, List, Ok, IfOk};
ghost use Rattle.netlist.specs.Netlist.{Netlist};
ghost use Rattle.checker.specs.Verdict.{Judged};

use leak_search::difference::Leak as Difference;
use std::alloc::{AllocError, Global};

/// A wire whose count of mask settings tells something about the secrets.
#[derive(Debug, Drop)]
pub struct Leak {
    /// the wire
    pub wire: usize,
    /// the input bits that are one in a setting that shows it, rising
    pub ones: Vec<u32>,
    /// for how many of the four mask settings the wire is one where the secrets are zero and the public bits the same
    pub base: u64,
    /// for how many it is one in the setting
    pub own: u64,
    /// whether no lower wire leaks, and no smaller setting shows it
    pub is_lowest: bool,
}

/// The one-wire answer.
#[derive(Debug, Drop)]
pub enum Verdict {
    /// no wire leaks
    Clean,
    /// a wire leaks
    Leak(Leak),
    /// the lowest wire that is not known to be clean
    Unknown(usize),
}

/// The answer on pairs of wires.
#[derive(Clone, Copy, Debug, PartialEq, Eq)]
pub enum PairVerdict {
    /// no listed pair leaks
    Clean,
    /// so many pairs stand before the first that leaks
    Bad(usize),
    /// not decided
    Unknown,
}

/// Which check an answer comes from.
#[derive(Clone, Copy, Debug, PartialEq, Eq)]
pub enum By {
    /// all settings of at most twelve input bits
    Exact,
    /// each wire over the inputs that reach it
    Wide,
    /// the certifier
    Certified,
}

/// Both answers, and which check gave the one on wires.
#[derive(Debug, Drop)]
pub struct Judgement {
    /// the one-wire answer
    pub verdict: Verdict,
    /// the answer on the listed pairs
    pub pairs: PairVerdict,
    /// the check that gave the one-wire answer
    pub by: By,
}

/// The bits that are one in a setting, which is a number of twelve bits.
fn ones_of(alloc: Global, setting: u64) -> Result<Vec<u32>, AllocError> {
    let mut ones = Vec::new(alloc);
    for bit in 0..64u32 {
        if setting >> bit & 1 == 1 {
            ones.push(bit)?;
        }
    }
    Ok(ones)
}

impl Verdict {
    ghost use Rattle.command_checking.specs.Says.{Follows};

    /// The verdict of the exact check.
    pub fn of_exact(alloc: Global, found: Option<Difference>) -> Result<Verdict, AllocError>
        ensures { (N : Netlist) (codes : List ℕ) → Judged N codes (Ok found)
            → IfOk result (λ verdict. Follows codes verdict N) }
    {
        match found {
            None => Ok(Verdict::Clean),
            Some(leak) => Ok(Verdict::Leak(Leak {
                wire: leak.wire,
                ones: ones_of(alloc, leak.setting)?,
                base: u64::from(leak.base),
                own: u64::from(leak.own),
                is_lowest: true,
            })),
        }
    }
}

impl PairVerdict {
    /// The answer of a check of pairs.
    pub fn of(bad: Option<usize>) -> PairVerdict {
        match bad {
            None => PairVerdict::Clean,
            Some(before) => PairVerdict::Bad(before),
        }
    }
}
