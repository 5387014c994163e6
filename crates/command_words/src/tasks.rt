//! The task of each subcommand, and the files that it wants.

use crate::format::format_named;
use crate::plan::{
    CheckTask, ConvertTask, Format, InfoTask, JoinTask, List, MaskTask, Method, Role, RunTask,
    SameTask, SessionTask, Source, TwinsTask,
};
use clap::ArgMatches;
use std::alloc::{AllocError, Global};

/// How many settings the check of many inputs may try, unless the user says another number.
const BUDGET: u64 = 20_000_000;

/// How many random settings two netlists are compared on, unless the user says another number.
const SETTINGS: u64 = 65_536;

/// One file more.
fn want(
    alloc: Global,
    sources: &mut Vec<Source>,
    role: Role,
    name: &str,
    is_optional: bool,
) -> Result<(), AllocError> {
    let name = String::from_str(alloc, name)?;
    sources.push(Source {
        role,
        name,
        is_optional,
    })?;
    Ok(())
}

fn owned(alloc: Global, word: Option<&str>) -> Result<Option<String>, AllocError> {
    match word {
        Some(word) => Ok(Some(String::from_str(alloc, word)?)),
        None => Ok(None),
    }
}

/// The file that a result goes to; none for standard output.
fn destination(alloc: Global, word: Option<&str>) -> Result<Option<String>, AllocError> {
    match word {
        Some("-") => Ok(None),
        word => owned(alloc, word),
    }
}

/// A list as it was given, with the file that it names behind `@`.
fn list(
    alloc: Global,
    sources: &mut Vec<Source>,
    word: &str,
    role: Role,
) -> Result<List, AllocError> {
    match word.strip_prefix('@') {
        Some(name) => {
            want(alloc, sources, role, name, false)?;
            Ok(List::File)
        }
        None => Ok(List::Words(String::from_str(alloc, word)?)),
    }
}

fn optional_list(
    alloc: Global,
    sources: &mut Vec<Source>,
    word: Option<&str>,
    role: Role,
) -> Result<Option<List>, AllocError> {
    match word {
        Some(word) => Ok(Some(list(alloc, sources, word, role)?)),
        None => Ok(None),
    }
}

fn from(matches: &ArgMatches) -> Option<Format> {
    format_named(matches.get_str("from")?)
}

/// The name without its suffix, and with `.codes` in its place.
pub fn beside(alloc: Global, name: &str) -> Result<String, AllocError> {
    let kept = match name.rsplit_once('.') {
        Some((stem, suffix)) if !suffix.contains('/') => stem,
        _ => name,
    };
    format!(in alloc; "{kept}.codes")
}

/// The codes beside a file, which may be missing; standard input has none.
fn want_beside(
    alloc: Global,
    sources: &mut Vec<Source>,
    name: &str,
    role: Role,
) -> Result<(), AllocError> {
    if name == "-" {
        return Ok(());
    }
    let codes = beside(alloc, name)?;
    sources.push(Source {
        role,
        name: codes,
        is_optional: true,
    })?;
    Ok(())
}

/// Where the codes of a result go: where it is said, else beside a result's file.
fn codes_file(
    alloc: Global,
    word: Option<&str>,
    out: Option<&str>,
) -> Result<Option<String>, AllocError> {
    match (word, out) {
        (Some(word), _) => Ok(Some(String::from_str(alloc, word)?)),
        (None, None) | (None, Some("-")) => Ok(None),
        (None, Some(out)) => Ok(Some(beside(alloc, out)?)),
    }
}

fn netlist(
    alloc: Global,
    matches: &ArgMatches,
    sources: &mut Vec<Source>,
) -> Result<(), AllocError> {
    want(
        alloc,
        sources,
        Role::Netlist,
        matches.get_str("FILE").unwrap_or("-"),
        false,
    )
}

pub fn mask(
    alloc: Global,
    matches: &ArgMatches,
    sources: &mut Vec<Source>,
) -> Result<MaskTask, AllocError> {
    netlist(alloc, matches, sources)?;
    let codes = list(
        alloc,
        sources,
        matches.get_str("codes").unwrap_or(""),
        Role::Codes,
    )?;
    let wanted = optional_list(alloc, sources, matches.get_str("wanted"), Role::Wanted)?;
    Ok(MaskTask {
        codes,
        wanted,
        fewest: matches.get_one::<u64>("fewest"),
        from: from(matches),
        out: destination(alloc, matches.get_str("out"))?,
        codes_out: codes_file(alloc, matches.get_str("codes-out"), matches.get_str("out"))?,
    })
}

fn method(matches: &ArgMatches) -> Method {
    if matches.get_flag("exact") {
        Method::Exact
    } else if matches.get_flag("wide") {
        Method::Wide
    } else if matches.get_flag("certify") {
        Method::Certify
    } else {
        Method::Chosen
    }
}

pub fn check(
    alloc: Global,
    matches: &ArgMatches,
    sources: &mut Vec<Source>,
) -> Result<CheckTask, AllocError> {
    netlist(alloc, matches, sources)?;
    let codes = optional_list(alloc, sources, matches.get_str("codes"), Role::Codes)?;
    if codes.is_none() {
        want_beside(
            alloc,
            sources,
            matches.get_str("FILE").unwrap_or("-"),
            Role::Beside,
        )?;
    }
    let pairs = matches.get_str("pairs");
    if let Some(name) = pairs {
        want(alloc, sources, Role::Pairs, name, false)?;
    }
    Ok(CheckTask {
        codes,
        has_pairs: pairs.is_some(),
        method: method(matches),
        budget: matches.get_one::<u64>("budget").unwrap_or(BUDGET),
        from: from(matches),
    })
}

pub fn run(
    alloc: Global,
    matches: &ArgMatches,
    sources: &mut Vec<Source>,
) -> Result<RunTask, AllocError> {
    netlist(alloc, matches, sources)?;
    if let Some(name) = matches.get_str("vectors") {
        want(alloc, sources, Role::Vectors, name, false)?;
    }
    Ok(RunTask {
        values: owned(alloc, matches.get_str("VALUES"))?,
        from: from(matches),
    })
}

pub fn convert(
    alloc: Global,
    matches: &ArgMatches,
    sources: &mut Vec<Source>,
) -> Result<ConvertTask, AllocError> {
    netlist(alloc, matches, sources)?;
    let to = match matches.get_str("to") {
        Some(name) => format_named(name).unwrap_or(Format::Fashion),
        None => Format::Fashion,
    };
    if let Some(name) = matches.get_str("cells") {
        want(alloc, sources, Role::Cells, name, false)?;
    }
    Ok(ConvertTask {
        from: from(matches),
        to,
        out: destination(alloc, matches.get_str("out"))?,
        masks: owned(alloc, matches.get_str("masks"))?,
        module: owned(alloc, matches.get_str("module"))?,
        is_kept: !matches.get_flag("no-keep"),
    })
}

pub fn same(
    alloc: Global,
    matches: &ArgMatches,
    sources: &mut Vec<Source>,
) -> Result<SameTask, AllocError> {
    want(
        alloc,
        sources,
        Role::Netlist,
        matches.get_str("FIRST").unwrap_or("-"),
        false,
    )?;
    want(
        alloc,
        sources,
        Role::Second,
        matches.get_str("SECOND").unwrap_or("-"),
        false,
    )?;
    Ok(SameTask {
        from: from(matches),
        settings: matches.get_one::<u64>("settings").unwrap_or(SETTINGS),
        seed: matches.get_one::<u64>("seed").unwrap_or(1),
    })
}

pub fn join(
    alloc: Global,
    matches: &ArgMatches,
    sources: &mut Vec<Source>,
) -> Result<JoinTask, AllocError> {
    let first = matches.get_str("FIRST").unwrap_or("-");
    let second = matches.get_str("SECOND").unwrap_or("-");
    want(alloc, sources, Role::Netlist, first, false)?;
    want(alloc, sources, Role::Second, second, false)?;
    let codes = optional_list(alloc, sources, matches.get_str("codes"), Role::Codes)?;
    let out_codes = optional_list(alloc, sources, matches.get_str("out-codes"), Role::OutCodes)?;
    let second_codes = optional_list(
        alloc,
        sources,
        matches.get_str("second-codes"),
        Role::SecondCodes,
    )?;
    want_beside(alloc, sources, first, Role::Beside)?;
    want_beside(alloc, sources, second, Role::SecondBeside)?;
    Ok(JoinTask {
        codes,
        out_codes,
        second_codes,
        out: destination(alloc, matches.get_str("out"))?,
        codes_out: codes_file(alloc, matches.get_str("codes-out"), matches.get_str("out"))?,
    })
}

pub fn info(
    alloc: Global,
    matches: &ArgMatches,
    sources: &mut Vec<Source>,
) -> Result<InfoTask, AllocError> {
    netlist(alloc, matches, sources)?;
    Ok(InfoTask {
        from: from(matches),
    })
}

pub fn twins(
    alloc: Global,
    matches: &ArgMatches,
    sources: &mut Vec<Source>,
) -> Result<TwinsTask, AllocError> {
    netlist(alloc, matches, sources)?;
    let codes = list(
        alloc,
        sources,
        matches.get_str("codes").unwrap_or(""),
        Role::Codes,
    )?;
    Ok(TwinsTask {
        codes,
        from: from(matches),
    })
}

pub fn session(
    alloc: Global,
    matches: &ArgMatches,
    sources: &mut Vec<Source>,
) -> Result<SessionTask, AllocError> {
    let codes = list(
        alloc,
        sources,
        matches.get_str("codes").unwrap_or(""),
        Role::Codes,
    )?;
    let inputs = String::from_str(alloc, matches.get_str("inputs").unwrap_or(""))?;
    Ok(SessionTask { inputs, codes })
}
