//! A session held over lines of standard input.

use command_answer::answer::Status;
use command_answer::failure::Failure;
use command_answer::files::Files as Texts;
use command_session::bench::Bench;
use command_session::opening::opened;
use command_words::plan::SessionTask;
use std::alloc::AllocError;
use std::io::Write;

/// What one line comes to: a refused step is told on the second stream, with its line. Says whether it was refused,
/// and whether the first stream still takes text.
fn line<O: Write, E: Write>(
    alloc: std::alloc::Global,
    bench: &mut Bench,
    words: &str,
    number: usize,
    out: &mut O,
    err: &mut E,
) -> Result<(bool, bool), AllocError> {
    match bench.answer(alloc, words)? {
        Ok(text) => Ok((false, out.write_all(text.as_bytes()).is_ok())),
        Err(words) => {
            let _ = writeln!(err, "standard input:{number}: {words}");
            Ok((true, true))
        }
    }
}

/// Holds a session: the masked gates of its opening, and then the answer to each line at once. Ends with the lines,
/// or with the first stream.
pub fn hold<R: Input + AllocGlobal, O: Write, E: Write>(
    rt: &R,
    task: &SessionTask,
    files: Texts,
    out: &mut O,
    err: &mut E,
) -> Result<Status, Failure> {
    let alloc = rt.alloc();
    let mut bench = opened(alloc, task, files)?;
    let opening = bench.opening(alloc)?;
    let mut is_open = out.write_all(opening.as_bytes()).is_ok();
    let mut status = Status::Done;
    let mut number = 0usize;
    for words in rt.lines(alloc) {
        let Ok(words) = words else {
            break;
        };
        number = number.saturating_add(1);
        let (is_refused, goes_on) = line(alloc, &mut bench, words.as_str(), number, out, err)?;
        if is_refused {
            status = Status::Refused;
        }
        is_open = is_open && goes_on;
        if !is_open {
            break;
        }
    }
    Ok(status)
}
