//! What is checked, under which codes and by which check.

ghost use Rattle.std.specs.Prelude.{◌≡◌, IfOk};
ghost use Rattle.command_checking.specs.Says.{Says};
ghost use Rattle.command_check.specs.Judged.{Judges};

use crate::telling::tell;
use crate::words::Subject;
use command_answer::answer::Answer;
use command_answer::codes::{codes_given, codes_of_file};
use command_answer::failure::Failure;
use command_answer::files::{Files, Text};
use command_answer::netlists::{fashion_of, masked_limits, refused, refused_because, shape_of};
use command_checking::choice::{Job, Judged, certified, chosen, exact, wide};
use command_lists::codes::Side;
use command_lists::pairs::parse;
use command_words::plan::{CheckTask, Method, Role};
use netlist::Refusal;
use std::alloc::{AllocError, Global};

/// The codes that were given, else those beside the netlist.
fn codes(
    alloc: Global,
    task: &CheckTask,
    files: Files,
    widths: &[u32],
) -> Result<Vec<u8>, Failure> {
    match (&task.codes, files.get(Role::Beside)) {
        (Some(list), _) => codes_given(
            alloc,
            "--codes",
            list,
            files,
            Role::Codes,
            widths,
            Side::Inputs,
        ),
        (None, Some(file)) => codes_of_file(alloc, file, widths, Side::Inputs),
        (None, None) => Err(Failure::Words(format!(in alloc;
            "no codes: give --codes, or a file of codes beside the netlist, as fidrovelj mask -o writes it"
        )?)),
    }
}

/// The pairs of the file of pairs.
fn pairs(alloc: Global, files: Files) -> Result<Vec<u32>, Failure> {
    let Some(file) = files.get(Role::Pairs) else {
        return Ok(Vec::new(alloc));
    };
    let name = file.name.as_str();
    let parsed = match str::from_utf8(file.bytes.as_slice()) {
        Ok(text) => parse(alloc, text),
        Err(_) => return Err(Failure::Words(format!(in alloc; "{name}: a file of pairs is text")?)),
    };
    match parsed {
        Ok(pairs) => Ok(pairs),
        Err(error) => Err(Failure::List(String::from_str(alloc, name)?, error)),
    }
}

fn judged(alloc: Global, method: Method, job: Job) -> Result<Judged, AllocError>
    ensures { IfOk result (λ judged. IfOk judged (λ j. Says job.entry.text.now job.entry.codes.now j.verdict)) }
{
    match method {
        Method::Chosen => chosen(alloc, job),
        Method::Exact => exact(alloc, job),
        Method::Wide => wide(alloc, job),
        Method::Certify => certified(alloc, job),
    }
}

/// The first listed wire that the netlist does not have.
fn foreign_wire(pairs: &[u32], wires: usize) -> Option<u32> {
    pairs.iter().copied().find(|wire| wires <= *wire as usize)
}

/// The failure of a check.
fn refused_check(
    alloc: Global,
    file: &str,
    job: Job,
    question: Refusal,
) -> Result<Failure, AllocError> {
    let above = job.codes.iter().position(|code| 3 < *code);
    let bits = job.codes.len();
    let words = match (question, above, foreign_wire(job.pairs, job.wires)) {
        (Refusal::Inputs, Some(bit), _) => format!(in alloc;
            "the code of input bit {bit} is above 3"
        )?,
        (Refusal::Pairs, _, Some(wire)) => format!(in alloc;
            "a pair names wire {wire}, and the netlist has the wires 0 to {}",
            job.wires.saturating_sub(1)
        )?,
        (Refusal::Settings, _, _) if 12 < bits => format!(in alloc;
            "{bits} input bits, and the exact check takes at most 12"
        )?,
        _ => return Ok(refused(alloc, file, job.text, question, masked_limits())),
    };
    refused_because(alloc, file, job.text, question, words.as_str())
}

fn secrets(codes: &[u8]) -> usize {
    codes.iter().filter(|code| **code != 0).count()
}

/// The remark on where the codes come from, where they were not given.
fn remark_codes(
    alloc: Global,
    answer: &mut Answer,
    task: &CheckTask,
    files: Files,
    is_quiet: bool,
) -> Result<(), AllocError>
    ensures { answer.new.status ≡ answer.old.status }
{
    match (&task.codes, files.get(Role::Beside)) {
        (None, Some(file)) => {
            let line = format!(in alloc; "codes from {}", file.name)?;
            answer.remark(line.as_str(), is_quiet)
        }
        _ => Ok(()),
    }
}

/// What the check that is asked for says of a netlist, as an answer.
pub fn checked(
    alloc: Global,
    file: &str,
    method: Method,
    job: Job,
    is_json: bool,
) -> Result<Answer, Failure>
    ensures { IfOk result (Judges job.entry.text.now job.entry.codes.now) }
{
    let subject = Subject {
        wires: job.wires,
        bits: job.codes.len(),
        secrets: secrets(job.codes),
        pairs: job.pairs,
        budget: job.budget,
        is_within_budget: job.is_within_budget(),
    };
    match judged(alloc, method, job)? {
        Ok(judgement) => Ok(tell(alloc, file, &judgement, subject, is_json)?),
        Err(question) => Err(refused_check(alloc, file, job, question)?),
    }
}

/// Whether the netlist leaks on one wire, and whether a listed pair leaks.
pub fn answer(
    alloc: Global,
    task: CheckTask,
    files: Files,
    netlist: &Text,
    is_json: bool,
    is_quiet: bool,
) -> Result<Answer, Failure> {
    let file = netlist.name.as_str();
    let other = fashion_of(alloc, netlist, task.from)?;
    let text = match &other {
        Some(text) => text.as_slice(),
        None => netlist.bytes.as_slice(),
    };
    let shape = shape_of(alloc, file, text)?;
    let Some(widths) = shape.source_inputs() else {
        return Err(refused(alloc, file, text, Refusal::Masks, masked_limits()));
    };
    let codes = codes(alloc, &task, files, widths)?;
    let pairs = pairs(alloc, files)?;
    let job = Job {
        text,
        codes: codes.as_slice(),
        pairs: pairs.as_slice(),
        wires: shape.wires,
        budget: task.budget,
    };
    let mut answer = checked(alloc, file, task.method, job, is_json)?;
    remark_codes(alloc, &mut answer, &task, files, is_quiet)?;
    Ok(answer)
}
