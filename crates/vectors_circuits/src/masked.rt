//! A source through Mask, and its masked netlist through Run, Rewrite and Check.
use crate::codes::{MOST_BITS, Range};
use crate::second::Shape;
use crate::vectors::{Masking, Vectors};
use crate::{buffers, codes, forms, second, services, vectors, verdicts, words};
use netlist::Refusal;
use program::report::Score;

// The scores of a masked netlist.
#[derive(Clone, Copy, Default)]
pub(crate) struct Masked {
    pub(crate) mask: Score,
    pub(crate) rewrite: Score,
    pub(crate) check: Score,
    pub(crate) leaks: Score,
}

impl Masked {
    // Two masked netlists' scores as one.
    pub(crate) fn join(self, other: Masked) -> Self {
        Masked {
            mask: self.mask.join(other.mask),
            rewrite: self.rewrite.join(other.rewrite),
            check: self.check.join(other.check),
            leaks: self.leaks.join(other.leaks),
        }
    }
}

// A source for Mask, with the codes of its input bits and those that are wanted of its outputs, and the vectors of both
// netlists.
#[derive(Clone, Copy)]
struct Source<'t, 'i, 'w, 'v> {
    text: &'t [u8],
    ins: &'i [u8],
    wanted: &'w [u8],
    vectors: Vectors<'v>,
}

// Mask takes a source of at most so many bytes, by question 2, and of so many wires, by question 5.
const MOST_BYTES: usize = 60000;

const MOST_WIRES: usize = 2048;

// Question 12 refuses more than 12 input bits. With fewer the netlist is clean under the codes handed to Mask, and both
// judges agree on it, and on it under other codes.
fn judged(text: &[u8], ins: &[u8]) -> Score {
    if MOST_BITS < ins.len() {
        return Score::of(verdicts::refuses_settings(text, ins));
    }
    let mut others = [0u8; MOST_BITS];
    codes::cycle(&mut others, Range { low: 2, high: 3 });
    Score::of(verdicts::is_clean(text, ins))
        .case(verdicts::alike(text, ins))
        .case(verdicts::alike(text, words::part(&others, 0, ins.len())))
}

// The question by which Mask refuses a source: that of its bytes, or else of its wires. None refuses one within its
// limits.
fn question(text: &[u8], shape: Shape) -> Option<Refusal> {
    if MOST_BYTES < text.len() {
        return Some(Refusal::Length);
    }
    if MOST_WIRES < shape.wires {
        return Some(Refusal::Limits);
    }
    None
}

impl Source<'_, '_, '_, '_> {
    // The scores of its masked netlist, which has these output codes.
    fn scores(self, text: &mut [u8], out_codes: &[u8]) -> Masked {
        let mut m = self.unedited(text, out_codes);
        let e = verdicts::edits(text, self.ins);
        m.check = m.check.join(e.alike);
        m.leaks = e.leaks;
        m
    }

    // What needs no edits.
    fn unedited(self, text: &[u8], out_codes: &[u8]) -> Masked {
        let masking = Masking {
            ins: self.ins,
            outs: out_codes,
            settings: 4,
        };
        Masked {
            mask: vectors::score(text, self.vectors, masking).case(codes::suit(
                self.wanted,
                out_codes,
            )),
            rewrite: forms::score(text),
            check: judged(text, self.ins),
            leaks: Score::default(),
        }
    }

    // Mask's answer to a source that it refuses by a question, or by none, and the scores of its result.
    fn delivered(self, question: Option<Refusal>, out: &mut [u8], out_codes: &mut [u8]) -> Masked {
        match services::mask(self.text, self.ins, self.wanted, out, out_codes) {
            Ok(n) => {
                let n = program::lines::front(out, n);
                self.scores(&mut out[..n], words::part(out_codes, 0, self.wanted.len()))
            }
            Err(q) => Masked {
                mask: Score::of(question == Some(q)),
                ..Masked::default()
            },
        }
    }
}

// A source, with input codes and wanted codes of two ranges in turn.
pub(crate) fn scored(text: &[u8], vectors: Vectors, given: Range, asked: Range) -> Masked {
    let (shape, _) = second::header(text);
    let mut ins = buffers::list();
    let mut wanted = buffers::list();
    let mut out_codes = buffers::list();
    let mut out = buffers::text();
    codes::cycle(&mut ins, given);
    codes::cycle(&mut wanted, asked);
    let source = Source {
        text,
        ins: words::part(&ins, 0, shape.ins),
        wanted: words::part(&wanted, 0, shape.outs),
        vectors,
    };
    source.delivered(question(text, shape), &mut out, &mut out_codes)
}
