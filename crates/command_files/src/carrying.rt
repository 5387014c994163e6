//! A command line carried out.

ghost use Rattle.std.specs.Prelude.{◌≤◌, IfOk};

use crate::holding::hold;
use crate::reading::texts_of;
use crate::writing::{is_same_file, write_files};
use command::answer_of;
use command_answer::answer::{Answer, Status};
use command_answer::failure::Failure;
use command_answer::files::{Files as Texts, Text};
use command_words::plan::{Plan, Source, Task};
use command_words::reading::destinations;
use command_words::{Stop, plan_of};
use std::io;
use std::io::{ErrorKind, Write};
use std::rt::Files;

/// Whether a result would overwrite a file that is read.
fn overwrites<R: Files + AllocGlobal>(rt: &R, sources: &[Source], out: Option<&str>) -> bool {
    match out {
        Some(out) => sources
            .iter()
            .any(|source| is_same_file(rt, source.name.as_str(), out)),
        None => false,
    }
}

fn ask_files<R: Files + AllocGlobal>(rt: &R, plan: &Plan) -> Result<(), Failure> {
    let (out, codes_out) = destinations(&plan.task);
    let sources = plan.sources.as_slice();
    if overwrites(rt, sources, out) || overwrites(rt, sources, codes_out) {
        return Err(Failure::Words(format!(in rt.alloc();
            "a result would overwrite a file that is read: give another name"
        )?));
    }
    Ok(())
}

/// The answer to a plan whose files were read; its own files are put in place.
fn answered<R: Files + AllocGlobal>(rt: &R, plan: Plan, texts: &[Text]) -> Result<Answer, Failure> {
    let answer = answer_of(rt.alloc(), plan, Texts { texts })?;
    write_files(rt, answer.files.as_slice())?;
    Ok(answer)
}

/// Bytes to a stream. A closed pipe ends quietly.
fn put<O: Write>(out: &mut O, bytes: &[u8]) -> io::Result<()> {
    match out.write_all(bytes) {
        Err(error) if error.kind() == ErrorKind::BrokenPipe => Ok(()),
        result => result,
    }
}

fn put_answer<O: Write, E: Write>(answer: &Answer, out: &mut O, err: &mut E) -> u8
    ensures { result ≤ 3 }
{
    let _ = put(err, answer.remarks.as_bytes());
    match put(out, answer.output.as_slice()) {
        Ok(()) => answer.status.code(),
        Err(error) => {
            let _ = writeln!(err, "standard output: {error}");
            Status::Refused.code()
        }
    }
}

fn put_stop<O: Write, E: Write>(stop: &Stop, out: &mut O, err: &mut E) -> u8
    ensures { result ≤ 3 }
{
    match stop {
        Stop::Told(text) => {
            let _ = put(out, text.as_bytes());
            Status::Done.code()
        }
        Stop::Misused(text) => {
            let _ = writeln!(err, "{}", text.as_str().trim_end());
            Status::Refused.code()
        }
        Stop::Memory => {
            let _ = writeln!(err, "out of memory");
            Status::Refused.code()
        }
    }
}

fn carried_out<R: Files + Input + AllocGlobal, O: Write, E: Write>(
    rt: &R,
    plan: Plan,
    out: &mut O,
    err: &mut E,
) -> Result<u8, Failure>
    ensures { IfOk result (λ status. status ≤ 3) }
{
    ask_files(rt, &plan)?;
    let Plan {
        task,
        sources,
        is_json,
        is_quiet,
    } = plan;
    let texts = texts_of(rt, sources)?;
    if let Task::Session(session) = &task {
        let files = Texts {
            texts: texts.as_slice(),
        };
        return Ok(hold(rt, session, files, out, err)?.code());
    }
    let plan = Plan {
        task,
        sources: Vec::new(rt.alloc()),
        is_json,
        is_quiet,
    };
    let answer = answered(rt, plan, texts.as_slice())?;
    Ok(put_answer(&answer, out, err))
}

/// Carries out a command line, whose first word is the program's name, and gives the status that the process ends
/// with, 0 to 3. A refused command prints nothing on the first stream.
pub fn perform<R: Files + Input + AllocGlobal, O: Write, E: Write>(
    rt: &R,
    words: &[String],
    out: &mut O,
    err: &mut E,
) -> u8
    ensures { result ≤ 3 }
{
    let plan = match plan_of(rt.alloc(), words) {
        Ok(plan) => plan,
        Err(stop) => return put_stop(&stop, out, err),
    };
    match carried_out(rt, plan, out, err) {
        Ok(status) => status,
        Err(failure) => {
            let _ = writeln!(err, "{failure}");
            Status::Refused.code()
        }
    }
}
