//! From a plan and the bytes of its files to an answer: what is printed, which files are written, and the status.
//! Nothing is read or written here.
#![tactic(auto)]

use command_answer::answer::Answer;
use command_answer::failure::Failure;
use command_answer::files::{Files, Text};
use command_words::plan::{
    CheckTask, ConvertTask, InfoTask, JoinTask, MaskTask, Plan, Role, RunTask, SameTask,
    SessionTask, Task, TwinsTask,
};
use std::alloc::Global;

/// The file with a role that a plan always wants.
fn wanted<'a>(alloc: Global, files: Files<'a>, role: Role) -> Result<&'a Text, Failure> {
    match files.get(role) {
        Some(text) => Ok(text),
        None => Err(Failure::Words(format!(in alloc; "a file of the plan was not read")?)),
    }
}

/// The netlist of a plan.
fn netlist<'a>(alloc: Global, files: Files<'a>) -> Result<&'a Text, Failure> {
    wanted(alloc, files, Role::Netlist)
}

/// Whether the result is told as JSON, and whether remarks are left out.
#[derive(Clone, Copy)]
struct Manner {
    is_json: bool,
    is_quiet: bool,
}

fn mask(alloc: Global, task: MaskTask, files: Files, manner: Manner) -> Result<Answer, Failure> {
    let netlist = netlist(alloc, files)?;
    command_mask::mask_answer::answer(alloc, task, files, netlist, manner.is_json, manner.is_quiet)
}

fn check(alloc: Global, task: CheckTask, files: Files, manner: Manner) -> Result<Answer, Failure> {
    let netlist = netlist(alloc, files)?;
    command_check::asking::answer(alloc, task, files, netlist, manner.is_json, manner.is_quiet)
}

fn run(alloc: Global, task: RunTask, files: Files) -> Result<Answer, Failure> {
    let netlist = netlist(alloc, files)?;
    command_tell::run_answer::answer(alloc, task, files, netlist)
}

fn convert(alloc: Global, task: ConvertTask, files: Files) -> Result<Answer, Failure> {
    let netlist = netlist(alloc, files)?;
    command_tell::convert_answer::answer(alloc, task, files, netlist)
}

fn join(alloc: Global, task: JoinTask, files: Files, manner: Manner) -> Result<Answer, Failure> {
    let first = netlist(alloc, files)?;
    let second = wanted(alloc, files, Role::Second)?;
    command_mask::join_answer::answer(alloc, task, files, first, second, manner.is_quiet)
}

fn info(alloc: Global, task: InfoTask, files: Files, manner: Manner) -> Result<Answer, Failure> {
    let netlist = netlist(alloc, files)?;
    command_tell::info_answer::answer(alloc, task, netlist, manner.is_json)
}

fn twins(alloc: Global, task: TwinsTask, files: Files, manner: Manner) -> Result<Answer, Failure> {
    let netlist = netlist(alloc, files)?;
    command_mask::twins_answer::answer(alloc, task, files, netlist, manner.is_json)
}

fn same(alloc: Global, task: SameTask, files: Files) -> Result<Answer, Failure> {
    let first = netlist(alloc, files)?;
    let second = wanted(alloc, files, Role::Second)?;
    command_tell::same_answer::answer(alloc, task, first, second)
}

/// A session has no answer of its own: its steps have.
fn session(alloc: Global, _task: SessionTask) -> Result<Answer, Failure> {
    Ok(Answer::new(alloc))
}

/// What a task comes to, where the files that it wants have these bytes.
fn answer_of_task(
    alloc: Global,
    task: Task,
    files: Files,
    manner: Manner,
) -> Result<Answer, Failure> {
    match task {
        Task::Mask(task) => mask(alloc, task, files, manner),
        Task::Check(task) => check(alloc, task, files, manner),
        Task::Run(task) => run(alloc, task, files),
        Task::Convert(task) => convert(alloc, task, files),
        Task::Join(task) => join(alloc, task, files, manner),
        Task::Info(task) => info(alloc, task, files, manner),
        Task::Twins(task) => twins(alloc, task, files, manner),
        Task::Same(task) => same(alloc, task, files),
        Task::Session(task) => session(alloc, task),
    }
}

/// What a plan comes to, where the files that it wants have these bytes.
pub fn answer_of(alloc: Global, plan: Plan, files: Files) -> Result<Answer, Failure> {
    let Plan {
        task,
        sources: _sources,
        is_json,
        is_quiet,
    } = plan;
    answer_of_task(alloc, task, files, Manner { is_json, is_quiet })
}
