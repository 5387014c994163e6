//! Buffers and tables. An array that a function answers is lent at no cost to the proofs; one that is made in place has
//! its length computed each time that it is lent.
use crate::second::Gate;

// As long as the list of the circuits' names may be.
pub(crate) fn names() -> [u8; 4096] {
    [0; 4096]
}

// As long as the longest text.
pub(crate) fn text() -> [u8; 500000] {
    [0; 500000]
}

// As many entries as there are wires at most.
pub(crate) fn bytes() -> [u8; 18431] {
    [0; 18431]
}

pub(crate) fn words() -> [u64; 18431] {
    [0; 18431]
}

// Four entries a gate, for Mask.
pub(crate) fn wires() -> [u32; 73720] {
    [0; 73720]
}

// As many gates as there are at most.
pub(crate) fn gates() -> [Gate; 18430] {
    [Gate::default(); 18430]
}

// As many entries as a source of Mask has input or output bits at most.
pub(crate) fn list() -> [u8; 2048] {
    [0; 2048]
}
