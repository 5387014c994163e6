//! Check, against the counts of the second evaluator.
use crate::codes::MOST_BITS;
use crate::{counts, services, words};
use netlist::Refusal;
use program::report::Score;

// The edited netlists: how many of them both judge alike, and how many leak.
#[derive(Clone, Copy, Default)]
pub(crate) struct Edited {
    pub(crate) alike: Score,
    pub(crate) leaks: Score,
}

// Whether both judge a netlist alike.
pub(crate) fn alike(text: &[u8], codes: &[u8]) -> bool {
    services::check(text, codes) == Ok(counts::lowest(text, codes))
}

// Whether Check finds a netlist clean.
pub(crate) fn is_clean(text: &[u8], codes: &[u8]) -> bool {
    matches!(services::check(text, codes), Ok(None))
}

// Whether Check finds a leak.
fn leaks(text: &[u8], codes: &[u8]) -> bool {
    matches!(services::check(text, codes), Ok(Some(_)))
}

// Whether Check refuses a netlist for its input bits.
pub(crate) fn refuses_settings(text: &[u8], codes: &[u8]) -> bool {
    services::check(text, codes) == Err(Refusal::Settings)
}

// A name of three letters to a place.
fn name(text: &mut [u8], at: usize, name: &[u8]) {
    for (i, b) in name.iter().enumerate() {
        words::put(text, at.wrapping_add(i), *b);
    }
}

// One edited netlist more.
fn tried(text: &[u8], codes: &[u8], edited: Edited) -> Edited {
    Edited {
        alike: edited.alike.case(alike(text, codes)),
        leaks: edited.leaks.case(leaks(text, codes)),
    }
}

// How many edits are tried: none where Check refuses the netlist for its input bits.
fn turns(bits: usize) -> usize {
    if MOST_BITS < bits {
        return 0;
    }
    4
}

// Edits of a masked netlist: each makes one XOR an AND, and is taken back.
pub(crate) fn edits(text: &mut [u8], codes: &[u8]) -> Edited {
    let mut e = Edited::default();
    let mut place: usize = 0;
    for _ in 0..turns(codes.len()) {
        let at = words::find(text, place, b'X', b'X');
        name(text, at, b"AND");
        e = tried(text, codes, e);
        name(text, at, b"XOR");
        place = place.wrapping_add(text.len() / 5);
    }
    e
}
