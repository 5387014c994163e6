//! The four services, each with tables of its own, as long as question 1 asks.
use crate::buffers;
use checker::judge::Checked;
use netlist::{Answer, Sizes};

pub(crate) fn rewrite(text: &[u8], out: &mut [u8]) -> Answer {
    let mut operands = buffers::words();
    let mut results = buffers::words();
    let mut marks = buffers::bytes();
    convert::rewrite::rewrite(
        text,
        out,
        &mut operands,
        &mut results,
        &mut marks,
        Sizes::Standard,
    )
}

pub(crate) fn run(text: &[u8], list: &[u8], out: &mut [u8]) -> Answer {
    let mut operands = buffers::words();
    let mut results = buffers::words();
    let mut marks = buffers::bytes();
    let mut words = buffers::words();
    run::run(
        text,
        list,
        out,
        &mut operands,
        &mut results,
        &mut marks,
        &mut words,
        Sizes::Standard,
    )
}

pub(crate) fn mask(
    text: &[u8],
    codes: &[u8],
    wanted: &[u8],
    out: &mut [u8],
    out_codes: &mut [u8],
) -> Answer {
    let mut operands = buffers::words();
    let mut results = buffers::words();
    let mut wires = buffers::wires();
    let mut marks = buffers::bytes();
    mask::mask(
        text,
        codes,
        wanted,
        out,
        out_codes,
        &mut operands,
        &mut results,
        &mut wires,
        &mut marks,
        Sizes::Standard,
    )
}

pub(crate) fn check(text: &[u8], codes: &[u8]) -> Checked {
    let mut operands = buffers::words();
    let mut results = buffers::words();
    let mut marks = buffers::bytes();
    let mut words = buffers::words();
    let mut base = buffers::words();
    checker::check(
        text,
        codes,
        &mut operands,
        &mut results,
        &mut marks,
        &mut words,
        &mut base,
        Sizes::Standard,
    )
}
