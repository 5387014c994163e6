//! What a leak is, by the second evaluator: the count of every wire in every input setting.
use crate::codes::MOST_BITS;
use crate::second::Circuit;
use crate::{buffers, codes, second, words};
use leak_search::difference::Leak;

// A netlist, and the codes of its input bits.
#[derive(Clone, Copy)]
struct Coded<'g, 'c> {
    circuit: Circuit<'g>,
    codes: &'c [u8],
}

// The bits of a setting, input bit 0 its lowest.
fn spread(bits: &mut [u8], setting: usize) {
    let mut rest = setting;
    for bit in bits {
        *bit = (rest % 2) as u8;
        rest = rest / 2;
    }
}

// A count with the bit of one more mask setting; setting 0 begins it.
fn more(count: u8, bit: u8, masks: u8) -> u8 {
    if masks == 0 {
        return bit;
    }
    count.wrapping_add(bit)
}

// The first n wires under one more mask setting to the counts.
fn add(counts: &mut [u8], wires: &[u8], many: usize, masks: u8) {
    for (count, bit) in counts.iter_mut().zip(wires).take(many) {
        *count = more(*count, *bit, masks);
    }
}

// The lowest wire below `end` whose two counts differ.
fn differ(base: &[u8], counts: &[u8], end: usize) -> Option<usize> {
    base.iter()
        .zip(counts)
        .take(end)
        .position(|(a, b)| *a != *b)
}

impl Coded<'_, '_> {
    // One mask setting.
    fn masks(self, counts: &mut [u8], bits: &[u8], masks: u8, wires: &mut [u8]) {
        codes::settle(wires, bits, self.codes, masks);
        self.circuit.run(wires);
        add(counts, wires, self.circuit.shape.wires, masks);
    }

    // The count of each wire in one input setting.
    fn count(self, counts: &mut [u8], setting: usize, wires: &mut [u8]) {
        let mut all = [0u8; MOST_BITS];
        spread(&mut all, setting);
        let bits = words::part(&all, 0, self.codes.len());
        for m in 0..4u8 {
            self.masks(counts, bits, m, wires);
        }
    }

    // The lowest wire that leaks, and the smallest setting that shows it, from the counts of setting 0.
    fn search(self, wires: &mut [u8], base: &[u8], counts: &mut [u8]) -> Option<(usize, usize)> {
        let mut end = self.circuit.shape.wires;
        let mut lowest = None;
        for setting in 1..settings(self.codes.len()) {
            self.count(counts, setting, wires);
            if let Some(wire) = differ(base, counts, end) {
                end = wire;
                lowest = Some((wire, setting));
            }
        }
        lowest
    }

    fn leak(self, wires: &mut [u8], base: &mut [u8], counts: &mut [u8]) -> Option<Leak> {
        self.count(base, 0, wires);
        let (wire, setting) = self.search(wires, base, counts)?;
        self.count(counts, setting, wires);
        Some(Leak {
            wire,
            setting: setting as u64,
            base: words::byte(base, wire),
            own: words::byte(counts, wire),
        })
    }
}

// How many settings so many bits have.
fn settings(bits: usize) -> usize {
    if bits <= MOST_BITS {
        return 1usize << bits;
    }
    0
}

// The leak of a netlist of at most 12 input bits besides the mask pair.
pub(crate) fn lowest(text: &[u8], codes: &[u8]) -> Option<Leak> {
    let mut gates = buffers::gates();
    let mut wires = buffers::bytes();
    let mut base = buffers::bytes();
    let mut counts = buffers::bytes();
    let circuit = second::read(text, &mut gates);
    Coded { circuit, codes }.leak(&mut wires, &mut base, &mut counts)
}
