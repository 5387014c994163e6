//! A judgement in words.

use command_answer::grouped::Grouped;
use command_checking::verdict::{By, Judgement, Leak, PairVerdict, Verdict};
use std::alloc::{AllocError, Global};
use std::fmt;

/// What a judgement is about.
#[derive(Clone, Copy)]
pub struct Subject<'a> {
    /// the wires of the netlist
    pub wires: usize,
    /// the input bits besides the mask pair
    pub bits: usize,
    /// how many of them are secret
    pub secrets: usize,
    /// the pairs, two entries each
    pub pairs: &'a [u32],
    /// how many settings the check of many inputs may try
    pub budget: u64,
    /// whether it may try as many as it needs
    pub is_within_budget: bool,
}

/// The name of a check.
pub fn name(by: By) -> &'static str {
    match by {
        By::Exact => "exact",
        By::Wide => "wide",
        By::Certified => "certified",
    }
}

/// Bits by their numbers, with commas and an `and`.
#[derive(Clone, Copy)]
struct Bits<'a>(&'a [u32]);

impl fmt::Display for Bits<'_> {
    fn fmt<W: fmt::Write>(&self, f: &mut fmt::Formatter<W>) -> fmt::Result {
        let count = self.0.len();
        for (index, bit) in self.0.iter().enumerate() {
            if 0 < index && index.saturating_add(1) == count {
                f.write_str(" and ")?;
            } else if 0 < index {
                f.write_str(", ")?;
            }
            write!(f, "{bit}")?;
        }
        Ok(())
    }
}

fn leak(alloc: Global, leak: &Leak, by: &str) -> Result<String, AllocError> {
    let wire = leak.wire;
    let base = leak.base;
    let own = leak.own;
    let bits = Bits(leak.ones.as_slice());
    let (noun, are) = if leak.ones.len() == 1 {
        ("bit", "is")
    } else {
        ("bits", "are")
    };
    let lowest = if leak.is_lowest {
        ""
    } else {
        "; a lower wire may leak too"
    };
    format!(in alloc;
        "leak: wire {wire} is one for {own} of the four mask settings where input {noun} {bits} alone {are} one, \
        and for {base} where no secret bit is one ({by}){lowest}"
    )
}

fn unknown(alloc: Global, wire: usize, subject: Subject, by: &str) -> Result<String, AllocError> {
    let budget = subject.budget;
    if subject.is_within_budget {
        format!(in alloc;
            "undecided: wire {wire} is not known to be clean ({by}); more than 12 input bits reach a wire, \
            so no exact check decides"
        )
    } else {
        format!(in alloc;
            "undecided: wire {wire} is not known to be clean ({by}); the exact check of each wire may need \
            more than {budget} settings: give a larger --budget"
        )
    }
}

/// The one-wire answer.
pub fn verdict(
    alloc: Global,
    judgement: &Judgement,
    subject: Subject,
) -> Result<String, AllocError> {
    let by = name(judgement.by);
    let wires = Grouped(subject.wires);
    let bits = Grouped(subject.bits);
    match &judgement.verdict {
        Verdict::Clean if subject.secrets == 0 => {
            format!(in alloc;
                "clean: {wires} wires, but no input is secret: all codes are 0 ({by})"
            )
        }
        Verdict::Clean => format!(in alloc;
            "clean: {wires} wires under all settings of {bits} bits ({by})"
        ),
        Verdict::Leak(found) => leak(alloc, found, by),
        Verdict::Unknown(wire) => unknown(alloc, *wire, subject, by),
    }
}

/// The answer on pairs.
pub fn pairs(alloc: Global, answer: PairVerdict, subject: Subject) -> Result<String, AllocError> {
    let count = subject.pairs.len() / 2;
    match answer {
        PairVerdict::Clean => format!(in alloc; "pairs: all {count} clean"),
        PairVerdict::Bad(before) => {
            let at = before.saturating_mul(2);
            let first = subject.pairs.get(at).copied().unwrap_or(0);
            let second = subject
                .pairs
                .get(at.saturating_add(1))
                .copied()
                .unwrap_or(0);
            format!(in alloc;
                "bad pair: wires {first} and {second}, after {before} of {count} pairs"
            )
        }
        PairVerdict::Unknown => format!(in alloc; "pairs: not decided"),
    }
}
