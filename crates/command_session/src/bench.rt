//! A session with its lists.

use crate::steps::{Step, step_of, widths_of};
use crate::telling::{said, write_gate, write_twin};
use gates::records::{GateRecord, SourceRecord};
use netlist::Sizes;
use session::Session;
use session::given::Given;
use session::results::{masked, text};
use session::steps::{add, open, take_off};
use std::alloc::{AllocError, Global};

/// A source in the making: the widths and codes of its inputs, its gates, and their masked gates.
#[derive(Drop)]
pub struct Bench {
    widths: Vec<u32>,
    codes: Vec<u8>,
    session: Session,
    source: Vec<SourceRecord>,
    masked: Vec<GateRecord>,
}

/// What a line is answered with: text for standard output, or why it is refused.
pub type Told = Result<String, String>;

const NO_GATE: GateRecord = GateRecord {
    kind: 0,
    first: 0,
    second: 0,
    result: 0,
};

/// A refusal in words, with its number.
fn refused(alloc: Global, number: u8) -> Result<Told, AllocError> {
    let words = said(number);
    Ok(Err(format!(in alloc; "{words} (refused by {number})")?))
}

fn unknown(alloc: Global, line: &str) -> Result<Told, AllocError> {
    Ok(Err(format!(in alloc;
        "{line:?} is no step: XOR A B, AND A B, INV A, EQW A, EQ V, undo, text WIDTHS, masked WIDTHS"
    )?))
}

/// The masked gates from one place up to another, as gate lines.
fn gates_between(
    alloc: Global,
    masked: &[GateRecord],
    from: u32,
    to: u32,
) -> Result<String, AllocError> {
    let mut text = String::new(alloc);
    for (place, gate) in masked.iter().enumerate().skip(from as usize) {
        if (to as usize) <= place {
            break;
        }
        write_gate(&mut text, *gate)?;
    }
    Ok(text)
}

fn bits_of(widths: &[u32]) -> u32 {
    let mut bits = 0u32;
    for width in widths {
        bits = bits.saturating_add(*width);
    }
    bits
}

impl Bench {
    /// A session with these input values and codes, or the number of the question that refuses the opening.
    pub fn open(
        alloc: Global,
        widths: Vec<u32>,
        codes: Vec<u8>,
    ) -> Result<Result<Bench, u8>, AllocError> {
        let limits = Sizes::Whole.source_limits();
        let source = vec![in alloc; SourceRecord::default(); limits.table]?;
        let mut masked = vec![in alloc; NO_GATE; Sizes::Whole.masked_limits().table]?;
        let step = open(
            widths.as_slice(),
            codes.as_slice(),
            masked.as_mut_slice(),
            Sizes::Whole,
        );
        if step.refused != 0 {
            return Ok(Err(step.refused));
        }
        Ok(Ok(Bench {
            widths,
            codes,
            session: step.session,
            source,
            masked,
        }))
    }

    /// The masked gates of the opening: those of the masks and of the public bits.
    pub fn opening(&self, alloc: Global) -> Result<String, AllocError> {
        gates_between(alloc, self.masked.as_slice(), 0, self.session.masked)
    }

    fn add(
        &mut self,
        alloc: Global,
        kind: u32,
        first: u32,
        second: u32,
    ) -> Result<Told, AllocError> {
        let Bench {
            widths,
            codes,
            session,
            source,
            masked,
        } = self;
        let before = *session;
        let gate = GateRecord {
            kind,
            first,
            second,
            result: bits_of(widths.as_slice()).saturating_add(before.gates),
        };
        let step = add(
            before,
            gate,
            codes.as_slice(),
            source.as_mut_slice(),
            masked.as_mut_slice(),
            Sizes::Whole,
        );
        if step.refused != 0 {
            return refused(alloc, step.refused);
        }
        *session = step.session;
        let mut told = String::new(alloc);
        if let Some(record) = source.get(before.gates as usize) {
            write_twin(&mut told, *record)?;
        }
        let gates = gates_between(alloc, masked.as_slice(), before.masked, step.session.masked)?;
        told.push_str(gates.as_str())?;
        Ok(Ok(told))
    }

    fn undo(&mut self, alloc: Global) -> Result<Told, AllocError> {
        let step = take_off(self.session, self.source.as_slice());
        if step.refused != 0 {
            return refused(alloc, step.refused);
        }
        self.session = step.session;
        let wire = bits_of(self.widths.as_slice()).saturating_add(step.session.gates);
        Ok(Ok(format!(in alloc; "# wire {wire} is taken off\n")?))
    }

    fn given<'a>(&'a self, outputs: &'a [u32]) -> Given<'a> {
        Given {
            session: self.session,
            widths: self.widths.as_slice(),
            outputs,
            source: self.source.as_slice(),
        }
    }

    fn text(&self, alloc: Global, outputs: &[u32]) -> Result<Told, AllocError> {
        let table = Sizes::Whole.source_limits().table;
        let mut operands = vec![in alloc; 0u64; table]?;
        let mut results = vec![in alloc; 0u64; table]?;
        let mut out = vec![in alloc; 0u8; Sizes::Whole.masked_limits().text]?;
        let answer = text(
            self.given(outputs),
            out.as_mut_slice(),
            operands.as_mut_slice(),
            results.as_mut_slice(),
            Sizes::Whole,
        );
        told_text(alloc, out, answer.map_err(|question| question.number()))
    }

    fn masked(&self, alloc: Global, outputs: &[u32]) -> Result<Told, AllocError> {
        let table = Sizes::Whole.source_limits().table;
        let wanted = vec![in alloc; 0u8; bits_of(outputs) as usize]?;
        let mut out_codes = vec![in alloc; 0u8; wanted.len()]?;
        let mut operands = vec![in alloc; 0u64; table]?;
        let mut results = vec![in alloc; 0u64; table]?;
        let mut wires = vec![in alloc; 0u32; table]?;
        let mut marks = vec![in alloc; 0u8; table]?;
        let mut out = vec![in alloc; 0u8; Sizes::Whole.masked_limits().text]?;
        let answer = masked(
            self.given(outputs),
            self.codes.as_slice(),
            wanted.as_slice(),
            out.as_mut_slice(),
            out_codes.as_mut_slice(),
            operands.as_mut_slice(),
            results.as_mut_slice(),
            wires.as_mut_slice(),
            marks.as_mut_slice(),
            Sizes::Whole,
        );
        told_text(alloc, out, answer.map_err(|question| question.number()))
    }

    fn shown(&self, alloc: Global, words: &str, is_masked: bool) -> Result<Told, AllocError> {
        let Some(outputs) = widths_of(alloc, words)? else {
            return unknown(alloc, words);
        };
        if is_masked {
            self.masked(alloc, outputs.as_slice())
        } else {
            self.text(alloc, outputs.as_slice())
        }
    }

    /// What a line is answered with. A refused line leaves the session as it was.
    pub fn answer(&mut self, alloc: Global, line: &str) -> Result<Told, AllocError> {
        match step_of(line) {
            Step::Nothing => Ok(Ok(String::new(alloc))),
            Step::Gate {
                kind,
                first,
                second,
            } => self.add(alloc, kind, first, second),
            Step::Undo => self.undo(alloc),
            Step::Text(widths) => self.shown(alloc, widths, false),
            Step::Masked(widths) => self.shown(alloc, widths, true),
            Step::Unknown => unknown(alloc, line),
        }
    }
}

/// A netlist's text, or why there is none.
fn told_text(
    alloc: Global,
    mut out: Vec<u8>,
    answer: Result<usize, u8>,
) -> Result<Told, AllocError> {
    match answer {
        Ok(size) => {
            out.truncate(size);
            let text = str::from_utf8(out.as_slice()).unwrap_or("");
            Ok(Ok(String::from_str(alloc, text)?))
        }
        Err(number) => refused(alloc, number),
    }
}
