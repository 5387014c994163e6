//! A judgement as an answer: words or JSON, and the status.

ghost use Rattle.std.specs.Prelude.{◌≡◌, IfOk};
ghost use Rattle.command_check.specs.Judged.{IsFound, Tells};

use crate::words::{Subject, name, pairs, verdict};
use command_answer::answer::{Answer, Status};
use command_checking::verdict::{Judgement, Leak, PairVerdict, Verdict};
use command_words::VERSION;
use serde_json::{Value, json};
use std::alloc::{AllocError, Global};

/// The status that a judgement ends with: 1 at a leak or a bad pair, else 3 where something is not decided.
pub fn status(judgement: &Judgement) -> Status
    ensures done { result ≡ Status.Done → (judgement.now.verdict ≡ Verdict.Clean)
        × (judgement.now.pairs ≡ PairVerdict.Clean) }
    ensures found { result ≡ Status.Found → IsFound judgement.now }
{
    match (&judgement.verdict, judgement.pairs) {
        (Verdict::Leak(_), _) | (_, PairVerdict::Bad(_)) => Status::Found,
        (Verdict::Unknown(_), _) | (_, PairVerdict::Unknown) => Status::Undecided,
        _ => Status::Done,
    }
}

fn ones(alloc: Global, leak: &Leak) -> Result<Value, AllocError> {
    let mut list = Vec::new(alloc);
    for bit in leak.ones.as_slice() {
        let bit = u64::from(*bit);
        list.push(json!(in alloc; bit)?)?;
    }
    Ok(Value::Array(list))
}

fn leak_object(alloc: Global, judgement: &Judgement) -> Result<Value, AllocError> {
    match &judgement.verdict {
        Verdict::Leak(leak) => {
            let wire = leak.wire as u64;
            let base = leak.base;
            let own = leak.own;
            let lowest = leak.is_lowest;
            let ones = ones(alloc, leak)?;
            json!(in alloc; {"wire": wire, "ones": ones, "base": base, "own": own, "lowest": lowest})
        }
        _ => json!(in alloc; null),
    }
}

fn verdict_word(judgement: &Judgement) -> &'static str {
    match judgement.verdict {
        Verdict::Clean => "clean",
        Verdict::Leak(_) => "leak",
        Verdict::Unknown(_) => "undecided",
    }
}

fn undecided_wire(judgement: &Judgement) -> Option<u64> {
    match judgement.verdict {
        Verdict::Unknown(wire) => Some(wire as u64),
        _ => None,
    }
}

fn pairs_word(judgement: &Judgement) -> &'static str {
    match judgement.pairs {
        PairVerdict::Clean => "clean",
        PairVerdict::Bad(_) => "bad",
        PairVerdict::Unknown => "undecided",
    }
}

fn clean_pairs(judgement: &Judgement) -> Option<u64> {
    match judgement.pairs {
        PairVerdict::Bad(before) => Some(before as u64),
        _ => None,
    }
}

fn object(
    alloc: Global,
    file: &str,
    judgement: &Judgement,
    subject: Subject,
) -> Result<String, AllocError> {
    let wires = subject.wires as u64;
    let bits = subject.bits as u64;
    let secrets = subject.secrets as u64;
    let count = (subject.pairs.len() / 2) as u64;
    let leak = leak_object(alloc, judgement)?;
    let value = json!(in alloc; {
        "version": VERSION,
        "command": "check",
        "file": file,
        "verdict": verdict_word(judgement),
        "method": name(judgement.by),
        "wires": wires,
        "input_bits": bits,
        "secret_bits": secrets,
        "leak": leak,
        "undecided_wire": undecided_wire(judgement),
        "pairs": count,
        "pairs_verdict": pairs_word(judgement),
        "pairs_before_bad": clean_pairs(judgement),
    })?;
    value.to_string(alloc)
}

/// The answer that a judgement comes to.
pub fn tell(
    alloc: Global,
    file: &str,
    judgement: &Judgement,
    subject: Subject,
    is_json: bool,
) -> Result<Answer, AllocError>
    ensures { IfOk result (Tells judgement.now) }
{
    let mut answer = Answer::new(alloc);
    if is_json {
        answer.say(object(alloc, file, judgement, subject)?.as_str())?;
    } else {
        answer.say(verdict(alloc, judgement, subject)?.as_str())?;
        if !subject.pairs.is_empty() {
            answer.say(pairs(alloc, judgement.pairs, subject)?.as_str())?;
        }
    }
    answer.status = status(judgement);
    Ok(answer)
}
