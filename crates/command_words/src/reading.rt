//! The plan of a command line.

use crate::plan::{Plan, Source, Task};
use crate::stop::Stop;
use crate::{commands, tasks};
use clap::{ArgMatches, Error};
use std::alloc::{AllocError, Global};

/// What clap says of words that it does not take, or of a call for help.
fn stopped(alloc: Global, error: &Error) -> Stop {
    match format!(in alloc; "{error}") {
        Ok(text) if error.use_stderr() => Stop::Misused(text),
        Ok(text) => Stop::Told(text),
        Err(_) => Stop::Memory,
    }
}

fn misused(alloc: Global, text: &str) -> Stop {
    match String::from_str(alloc, text) {
        Ok(text) => Stop::Misused(text),
        Err(_) => Stop::Memory,
    }
}

fn task(
    alloc: Global,
    name: &str,
    matches: &ArgMatches,
    sources: &mut Vec<Source>,
) -> Result<Option<Task>, AllocError> {
    Ok(Some(match name {
        "mask" => Task::Mask(tasks::mask(alloc, matches, sources)?),
        "check" => Task::Check(tasks::check(alloc, matches, sources)?),
        "run" => Task::Run(tasks::run(alloc, matches, sources)?),
        "convert" => Task::Convert(tasks::convert(alloc, matches, sources)?),
        "join" => Task::Join(tasks::join(alloc, matches, sources)?),
        "info" => Task::Info(tasks::info(alloc, matches, sources)?),
        "twins" => Task::Twins(tasks::twins(alloc, matches, sources)?),
        "same" => Task::Same(tasks::same(alloc, matches, sources)?),
        "session" => Task::Session(tasks::session(alloc, matches, sources)?),
        _ => return Ok(None),
    }))
}

/// Whether a file that is read has this name. Standard input is no file.
fn is_read(sources: &[Source], name: &str) -> bool {
    name != "-" && sources.iter().any(|source| source.name.as_str() == name)
}

/// How many files are read from standard input.
fn from_standard_input(sources: &[Source]) -> usize {
    sources
        .iter()
        .filter(|source| source.name.as_str() == "-")
        .count()
}

/// The files that a task's result goes to.
pub fn destinations(task: &Task) -> (Option<&str>, Option<&str>) {
    match task {
        Task::Mask(mask) => (mask.out.as_deref(), mask.codes_out.as_deref()),
        Task::Join(join) => (join.out.as_deref(), join.codes_out.as_deref()),
        Task::Convert(convert) => (convert.out.as_deref(), None),
        _ => (None, None),
    }
}

/// The first reason why the files of a plan do not go together.
fn objection(task: &Task, sources: &[Source]) -> Option<&'static str> {
    let (out, codes_out) = destinations(task);
    if 1 < from_standard_input(sources) {
        return Some("standard input can be read once: give the other files by their names");
    }
    if out.is_some_and(|name| is_read(sources, name)) {
        return Some(
            "the file of -o is read: give another name, since no command overwrites its own input",
        );
    }
    if codes_out.is_some_and(|name| is_read(sources, name)) {
        return Some("the file for the codes is read: give another with --codes-out");
    }
    if out.is_some() && out == codes_out {
        return Some("the netlist and its codes want two files: give another with --codes-out");
    }
    None
}

fn plan(alloc: Global, name: &str, matches: &ArgMatches) -> Result<Plan, Stop> {
    let mut sources = Vec::new(alloc);
    let Some(task) = task(alloc, name, matches, &mut sources)? else {
        return Err(misused(alloc, "there is no such subcommand"));
    };
    if let Some(text) = objection(&task, sources.as_slice()) {
        return Err(misused(alloc, text));
    }
    Ok(Plan {
        task,
        sources,
        is_json: matches.get_flag("json"),
        is_quiet: matches.get_flag("quiet"),
    })
}

/// The plan of a command line, whose first word is the program's name; or what there is to tell in its place.
pub fn plan_of(alloc: Global, words: &[String]) -> Result<Plan, Stop> {
    let command = commands::all(alloc)?;
    match command.try_get_matches_from(words) {
        Ok(matches) => match matches.subcommand() {
            Some((name, matches)) => plan(alloc, name, matches),
            None => Err(misused(alloc, "there is no subcommand")),
        },
        Err(error) => Err(stopped(alloc, &error)),
    }
}
