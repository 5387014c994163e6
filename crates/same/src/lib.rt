//! Do two circuits compute the same? Asked by settings of their inputs, sixty-four at a time.
#![tactic(auto)]

use circuit::{Circuit, Port, bits};
use netlist::Gate;
use rand_core::{Rng, SeedableRng};
use rand_xoshiro::Xoshiro256PlusPlus;
use std::alloc::{AllocError, Global};
use thiserror::Error;

/// Up to this many input bits all settings are tried.
pub const MOST_TRIED: u32 = 20;

/// Why two circuits are not compared.
#[derive(Clone, Copy, Debug, PartialEq, Eq, Error)]
pub enum SameError {
    #[error("out of memory")]
    Memory,
    #[error("the inputs have other widths")]
    Inputs,
    #[error("the outputs have other widths")]
    Outputs,
}

impl From<AllocError> for SameError {
    fn from(_error: AllocError) -> Self {
        SameError::Memory
    }
}

/// What the settings that were tried show.
#[derive(Debug, Drop)]
pub enum Comparison {
    /// no difference in this many settings, and whether these are all
    NoDifference { settings: u64, all: bool },
    /// the input bits of a setting, and an output bit that differs there
    Difference { inputs: Vec<bool>, output: u32 },
}

/// The word of a wire, or zero where there is none.
fn word(words: &[u64], wire: u32) -> u64 {
    words.get(wire as usize).copied().unwrap_or(0)
}

/// Runs the gates on the words of wires: bit j of each belongs to setting j.
fn run(gates: &[Gate], words: &mut [u64]) {
    for gate in gates {
        let value = match *gate {
            Gate::Xor(left, right, _) => word(words, left) ^ word(words, right),
            Gate::And(left, right, _) => word(words, left) & word(words, right),
            Gate::Inv(source, _) => !word(words, source),
            Gate::Eqw(source, _) => word(words, source),
            Gate::Eq(0, _) => 0,
            Gate::Eq(_, _) => u64::MAX,
        };
        if let Some(place) = words.get_mut(circuit::result(*gate) as usize) {
            *place = value;
        }
    }
}

/// The words of six inputs over sixty-four settings in a row.
const FIRST_SIX: [u64; 6] = [
    0xaaaa_aaaa_aaaa_aaaa,
    0xcccc_cccc_cccc_cccc,
    0xf0f0_f0f0_f0f0_f0f0,
    0xff00_ff00_ff00_ff00,
    0xffff_0000_ffff_0000,
    0xffff_ffff_0000_0000,
];

/// A circuit on sixty-four settings: the words of its wires.
#[derive(Drop)]
pub struct Runner<'a> {
    circuit: &'a Circuit,
    words: Vec<u64>,
}

impl<'a> Runner<'a> {
    /// A circuit before its first run.
    pub fn new(alloc: Global, circuit: &'a Circuit) -> Result<Self, AllocError> {
        Ok(Runner {
            circuit,
            words: vec![in alloc; 0; circuit.wires as usize]?,
        })
    }

    /// Runs the circuit on the words of its inputs: bit j of each belongs to setting j.
    pub fn run(&mut self, inputs: &[u64]) {
        for (place, word) in self.words.iter_mut().zip(inputs.iter()) {
            *place = *word;
        }
        run(&self.circuit.gates, &mut self.words);
    }

    /// The word of an output bit after a run.
    pub fn output(&self, bit: u32) -> u64 {
        let first = self
            .circuit
            .wires
            .saturating_sub(bits(&self.circuit.outputs));
        word(&self.words, first.saturating_add(bit))
    }
}

/// Whether values have the same widths.
fn same_widths(left: &[Port], right: &[Port]) -> bool {
    left.len() == right.len()
        && left
            .iter()
            .zip(right.iter())
            .all(|(left, right)| left.width == right.width)
}

/// The bits of one setting in words.
fn setting(alloc: Global, words: &[u64], lane: u32) -> Result<Vec<bool>, AllocError> {
    let mut bits = Vec::new(alloc);
    for word in words {
        bits.push(word.wrapping_shr(lane) & 1 == 1)?;
    }
    Ok(bits)
}

/// Two circuits of the same widths.
#[derive(Drop)]
struct Pair<'a> {
    left: Runner<'a>,
    right: Runner<'a>,
    outputs: u32,
}

impl Pair<'_> {
    /// A setting among sixty-four at which an output bit differs.
    fn difference(
        &mut self,
        alloc: Global,
        inputs: &[u64],
    ) -> Result<Option<Comparison>, AllocError> {
        self.left.run(inputs);
        self.right.run(inputs);
        for output in 0..self.outputs {
            let other = self.left.output(output) ^ self.right.output(output);
            if other != 0 {
                let inputs = setting(alloc, inputs, other.trailing_zeros())?;
                return Ok(Some(Comparison::Difference { inputs, output }));
            }
        }
        Ok(None)
    }

    /// All settings of at most `MOST_TRIED` input bits.
    fn all(&mut self, alloc: Global, inputs: &mut [u64]) -> Result<Comparison, AllocError> {
        let count = inputs.len();
        let settings = 1u64.wrapping_shl(count.min(63) as u32);
        for block in 0..settings.div_ceil(64) {
            for (place, word) in inputs.iter_mut().enumerate() {
                *word = match FIRST_SIX.get(place) {
                    Some(pattern) => *pattern,
                    None => 0u64.wrapping_sub(block.wrapping_shr((place - 6).min(63) as u32) & 1),
                };
            }
            if let Some(found) = self.difference(alloc, inputs)? {
                return Ok(found);
            }
        }
        Ok(Comparison::NoDifference {
            settings,
            all: true,
        })
    }

    /// Random settings, sixty-four at a time.
    fn some(
        &mut self,
        alloc: Global,
        inputs: &mut [u64],
        wanted: u64,
        seed: u64,
    ) -> Result<Comparison, AllocError> {
        let mut random = Xoshiro256PlusPlus::seed_from_u64(seed);
        let blocks = wanted.div_ceil(64);
        for _ in 0..blocks {
            for word in inputs.iter_mut() {
                *word = random.next_u64();
            }
            if let Some(found) = self.difference(alloc, inputs)? {
                return Ok(found);
            }
        }
        Ok(Comparison::NoDifference {
            settings: blocks.saturating_mul(64),
            all: false,
        })
    }
}

/// Compares two circuits by their outputs: on all settings where the inputs have at most `MOST_TRIED` bits, else on
/// `settings` random ones, rounded up to sixty-four, that `seed` picks.
pub fn compare(
    alloc: Global,
    left: &Circuit,
    right: &Circuit,
    settings: u64,
    seed: u64,
) -> Result<Comparison, SameError> {
    if !same_widths(&left.inputs, &right.inputs) {
        return Err(SameError::Inputs);
    }
    if !same_widths(&left.outputs, &right.outputs) {
        return Err(SameError::Outputs);
    }
    let count = bits(&left.inputs);
    let mut inputs = vec![in alloc; 0; count as usize]?;
    let mut pair = Pair {
        left: Runner::new(alloc, left)?,
        right: Runner::new(alloc, right)?,
        outputs: bits(&left.outputs),
    };
    if count <= MOST_TRIED {
        Ok(pair.all(alloc, &mut inputs)?)
    } else {
        Ok(pair.some(alloc, &mut inputs, settings, seed)?)
    }
}
