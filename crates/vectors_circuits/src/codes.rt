//! Mask codes, and bits that travel under them. The mask setting m is m0 and twice m1.
use crate::words;

// Check judges a netlist of at most so many input bits besides the mask pair, by question 12.
pub(crate) const MOST_BITS: usize = 12;

fn mask(code: u8, masks: u8) -> u8 {
    match code {
        1 => masks % 2,
        2 => masks / 2,
        3 => (masks % 2) ^ (masks / 2),
        _ => 0,
    }
}

// The codes from `low` to `high`.
#[derive(Clone, Copy)]
pub(crate) struct Range {
    pub(crate) low: u8,
    pub(crate) high: u8,
}

// A list of the codes of a range in turn.
pub(crate) fn cycle(list: &mut [u8], range: Range) {
    let mut code = range.low;
    for entry in list {
        *entry = code;
        code = if code < range.high {
            code + 1
        } else {
            range.low
        };
    }
}

// A bit under the mask of its code. A bit is the lowest of its byte, so that a digit serves; without codes no mask is
// put on.
fn under(bit: u8, code: u8, masks: u8) -> u8 {
    (bit & 1) ^ mask(code, masks)
}

// The mask pair, after n input bits.
fn pair(wires: &mut [u8], count: usize, masks: u8) {
    words::put(wires, count, masks % 2);
    words::put(wires, count.wrapping_add(1), masks / 2);
}

// The input wires: each bit under the mask of its code, and the mask pair after them, which the first gates of an
// unmasked netlist write over.
pub(crate) fn settle(wires: &mut [u8], bits: &[u8], codes: &[u8], masks: u8) {
    for (i, bit) in bits.iter().enumerate() {
        words::put(wires, i, under(*bit, words::byte(codes, i), masks));
    }
    pair(wires, bits.len(), masks);
}

// Whether bits are those of a vector's word, once the masks of their codes are off.
pub(crate) fn agrees(bits: &[u8], codes: &[u8], masks: u8, word: &[u8]) -> bool {
    bits.len() == word.len()
        && bits.iter().zip(word).enumerate().all(|(i, (bit, wanted))| under(
            *bit,
            words::byte(codes, i),
            masks,
        ) == *wanted & 1)
}

// Whether an output code is the wanted one; any is where 0 is wanted.
fn suits(wanted: u8, code: u8) -> bool {
    match wanted {
        0 => matches!(code, 1..=3),
        _ => code == wanted,
    }
}

// Whether all output codes are as wanted.
pub(crate) fn suit(wanted: &[u8], codes: &[u8]) -> bool {
    wanted
        .iter()
        .enumerate()
        .all(|(i, entry)| suits(*entry, words::byte(codes, i)))
}
