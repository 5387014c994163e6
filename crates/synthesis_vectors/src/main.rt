//! Netlists that yosys and abc wrote, read and compared with what went into the tools, and texts that are refused,
//! with the words. The list `files` has a line for each: a source in Bristol Fashion, a netlist and a file of cells,
//! or `-` for each that there is not.
#![tactic(auto)]

use anyhow::{Result, anyhow};
use circuit::Circuit;
use same::Comparison;
use std::alloc::Global;
use std::fs;

/// The text of a file, or nothing for `-`.
fn text(rt: &(impl std::rt::Files + AllocGlobal), path: &str) -> Result<String> {
    if path == "-" {
        return Ok(String::new(rt.alloc()));
    }
    Ok(fs::read_to_string(rt, path)?)
}

/// What a comparison says.
fn told(alloc: Global, comparison: &Comparison) -> Result<String> {
    Ok(match comparison {
        Comparison::NoDifference {
            settings,
            all: true,
        } => format!(in alloc; "the same in all {settings} settings")?,
        Comparison::NoDifference {
            settings,
            all: false,
        } => format!(in alloc; "the same in {settings} settings")?,
        Comparison::Difference { output, .. } => format!(in alloc; "other at output {output}")?,
    })
}

/// What is said of a netlist that was read.
fn said(alloc: Global, source: &str, circuit: &Circuit) -> Result<String> {
    let judged = circuit.judged.len();
    let gates = circuit.gates.len();
    let again = blif::write::write(alloc, circuit)?;
    let back = blif::read::read(alloc, again.as_str(), None, None).map_err(|error| anyhow!(
        "{error}"
    ))?;
    let stays = back.gates == circuit.gates && back.wires == circuit.wires;
    let stays = if stays {
        "reads back"
    } else {
        "does not read back"
    };
    if source.is_empty() {
        return Ok(format!(in alloc; "{gates} gates, {judged} judged, {stays}")?);
    }
    let source = circuit::fashion::read(alloc, source.as_bytes()).map_err(|error| anyhow!(
        "{error}"
    ))?;
    let comparison = same::compare(alloc, &source, circuit, 4096, 1).map_err(|error| anyhow!(
        "{error}"
    ))?;
    let told = told(alloc, &comparison)?;
    Ok(format!(in alloc; "{gates} gates, {judged} judged, {stays}, {told}")?)
}

/// The line of a netlist.
fn line(
    rt: &(impl std::rt::Files + AllocGlobal),
    source: &str,
    netlist: &str,
    cells: &str,
) -> Result<String> {
    let alloc = rt.alloc();
    let source = text(rt, source)?;
    let netlist = text(rt, netlist)?;
    let cells = text(rt, cells)?;
    match blif::read::read(alloc, netlist.as_str(), Some(cells.as_str()), None) {
        Ok(circuit) => said(alloc, source.as_str(), &circuit),
        Err(error) => Ok(format!(in alloc; "{error}")?),
    }
}

fn main(rt: HostRuntime) -> Result<()> {
    let files = fs::read_to_string(&rt, "files")?;
    for entry in files.lines() {
        let mut words = entry.split_ascii_whitespace();
        let source = words.next().unwrap_or("-");
        let netlist = words.next().unwrap_or("-");
        let cells = words.next().unwrap_or("-");
        let line = line(&rt, source, netlist, cells)?;
        println!(rt; "{netlist}: {line}")?;
    }
    Ok(())
}
