//! Which check answers: exact for at most twelve input bits; else the certifier, and where it does not call the
//! netlist clean the check of many inputs, if it may try as many settings as it needs.

ghost use Rattle.std.specs.Prelude.{ℕ, List, IfOk};
ghost use Rattle.netlist.specs.Netlist.{Netlist};
ghost use Rattle.check_wide.specs.Promise.{WiresJudged};
ghost use Rattle.command_checking.specs.Says.{Follows, Says};

use crate::certified::certify;
use crate::exact::{check, check_pairs};
use crate::verdict::{By, Judgement, Leak, PairVerdict, Verdict};
use crate::wide::check_wide;
use check_wide::members::Ones;
use check_wide::search::WideLeak;
use netlist::Refusal;
use std::alloc::{AllocError, Global};

/// The most input bits of which the exact check tries all settings.
const MOST_BITS: usize = 12;

/// How many settings the check of many inputs tries at most for each wire or pair.
const SETTINGS: u64 = 4096;

/// A judgement, or the question that refuses it.
pub type Judged = Result<Judgement, Refusal>;

/// What is to be checked.
#[derive(Clone, Copy)]
pub struct Job<'a> {
    /// the netlist's text
    pub text: &'a [u8],
    /// a code for each input bit besides the mask pair
    pub codes: &'a [u8],
    /// pair j is entries 2j and 2j + 1
    pub pairs: &'a [u32],
    /// how many wires the netlist has
    pub wires: usize,
    /// how many settings the check of many inputs may try
    pub budget: u64,
}

impl Job<'_> {
    /// Whether the check of many inputs tries no more settings than it may: at most 4,096 for each wire and each pair.
    pub fn is_within_budget(&self) -> bool {
        let items = self.wires.saturating_add(self.pairs.len() / 2) as u64;
        items.saturating_mul(SETTINGS) <= self.budget
    }
}

/// The exact check.
pub fn exact(alloc: Global, job: Job) -> Result<Judged, AllocError>
    ensures { IfOk result (λ judged. IfOk judged (λ j. Says job.entry.text.now job.entry.codes.now j.verdict)) }
{
    if job.pairs.is_empty() {
        return match check(alloc, job.text, job.codes)? {
            Ok(found) => Ok(Ok(Judgement {
                verdict: Verdict::of_exact(alloc, found)?,
                pairs: PairVerdict::Clean,
                by: By::Exact,
            })),
            Err(question) => Ok(Err(question)),
        };
    }
    match check_pairs(alloc, job.text, job.codes, job.pairs)? {
        Ok(found) => Ok(Ok(Judgement {
            verdict: Verdict::of_exact(alloc, found.leak)?,
            pairs: PairVerdict::of(found.pair),
            by: By::Exact,
        })),
        Err(question) => Ok(Err(question)),
    }
}

fn members(alloc: Global, members: Ones) -> Result<Vec<u32>, AllocError> {
    let mut list = Vec::new(alloc);
    for (index, item) in members.items.iter().enumerate() {
        if index < members.count {
            list.push(*item)?;
        }
    }
    Ok(list)
}

fn verdict_of_wide(alloc: Global, found: Option<WideLeak>) -> Result<Verdict, AllocError>
    ensures { (N : Netlist) (codes : List ℕ) → WiresJudged N codes found
        → IfOk result (λ verdict. Follows codes verdict N) }
{
    match found {
        None => Ok(Verdict::Clean),
        Some(leak) => Ok(Verdict::Leak(Leak {
            wire: leak.wire,
            ones: members(alloc, leak.setting)?,
            base: u64::from(leak.base),
            own: u64::from(leak.own),
            is_lowest: true,
        })),
    }
}

/// The check of many inputs.
pub fn wide(alloc: Global, job: Job) -> Result<Judged, AllocError>
    ensures { IfOk result (λ judged. IfOk judged (λ j. Says job.entry.text.now job.entry.codes.now j.verdict)) }
{
    match check_wide(alloc, job.text, job.codes, job.pairs)? {
        Ok(found) => Ok(Ok(Judgement {
            verdict: verdict_of_wide(alloc, found.leak)?,
            pairs: PairVerdict::of(found.pair),
            by: By::Wide,
        })),
        Err(question) => Ok(Err(question)),
    }
}

/// The certifier, which says nothing of pairs.
pub fn certified(alloc: Global, job: Job) -> Result<Judged, AllocError>
    ensures { IfOk result (λ judged. IfOk judged (λ j. Says job.entry.text.now job.entry.codes.now j.verdict)) }
{
    let pairs = if job.pairs.is_empty() {
        PairVerdict::Clean
    } else {
        PairVerdict::Unknown
    };
    match certify(alloc, job.text, job.codes)? {
        Ok(verdict) => Ok(Ok(Judgement {
            verdict,
            pairs,
            by: By::Certified,
        })),
        Err(question) => Ok(Err(question)),
    }
}

/// What the check of many inputs adds to what the certifier found: its own answer, where it is within its budget and
/// decides.
fn decided(alloc: Global, job: Job, found: Judgement) -> Result<Judged, AllocError>
    requires { Says job.text.now job.codes.now found.verdict }
    ensures { IfOk result (λ judged. IfOk judged (λ j. Says job.entry.text.now job.entry.codes.now j.verdict)) }
{
    if !job.is_within_budget() {
        return Ok(Ok(found));
    }
    match wide(alloc, job)? {
        Err(Refusal::Settings) => Ok(Ok(found)),
        answer => Ok(answer),
    }
}

fn many(alloc: Global, job: Job) -> Result<Judged, AllocError>
    ensures { IfOk result (λ judged. IfOk judged (λ j. Says job.entry.text.now job.entry.codes.now j.verdict)) }
{
    match certified(alloc, job)? {
        Ok(found) if matches!(found.verdict, Verdict::Clean) && job.pairs.is_empty() => Ok(Ok(
            found,
        )),
        Ok(found) => decided(alloc, job, found),
        Err(question) => Ok(Err(question)),
    }
}

/// The check that fits the netlist.
pub fn chosen(alloc: Global, job: Job) -> Result<Judged, AllocError>
    ensures { IfOk result (λ judged. IfOk judged (λ j. Says job.entry.text.now job.entry.codes.now j.verdict)) }
{
    if job.codes.len() <= MOST_BITS {
        exact(alloc, job)
    } else {
        many(alloc, job)
    }
}
