//! The opening of a session from its words.

use crate::bench::Bench;
use crate::steps::widths_of;
use crate::telling::said;
use command_answer::codes::codes_given;
use command_answer::failure::Failure;
use command_answer::files::Files;
use command_lists::codes::Side;
use command_words::plan::{Role, SessionTask};
use std::alloc::Global;

/// The session that a task asks for.
pub fn opened(alloc: Global, task: &SessionTask, files: Files) -> Result<Bench, Failure> {
    let inputs = task.inputs.as_str();
    let Some(widths) = widths_of(alloc, inputs)? else {
        return Err(Failure::Words(format!(in alloc;
            "--inputs: {inputs:?} are no widths parted by commas"
        )?));
    };
    let codes = codes_given(
        alloc,
        "--codes",
        &task.codes,
        files,
        Role::Codes,
        widths.as_slice(),
        Side::Inputs,
    )?;
    match Bench::open(alloc, widths, codes)? {
        Ok(bench) => Ok(bench),
        Err(number) => {
            let words = said(number);
            Err(Failure::Words(format!(in alloc; "session: {words} (refused by {number})")?))
        }
    }
}
