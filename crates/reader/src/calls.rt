//! The calls of a gate reader counted.
ghost use Rattle.std.specs.Prelude.{◌≡◌};
ghost use Rattle.netlist.specs.Netlist.{masked_limits as limits_of_masked};
ghost use Rattle.reader.specs.Calls.{Called, CallIs, ReaderIs};

use crate::gate_reader::GateReader;
use crate::reader_opening::open_at;
use crate::step::Step;
use netlist::Sizes;

/// What a reader says, and the reader then.
#[derive(Clone, Copy)]
pub struct Call<'a> {
    pub step: Step,
    pub then: GateReader<'a>,
}

/// One call of a reader.
pub fn ask(reader: GateReader) -> Call
    ensures { (result.then.text ≡ reader.entry.text) × Called reader.entry.text.now reader.entry.at result }
{
    let step = reader.current();
    let then = reader.advance(step);
    Call { step, then }
}

// What a reader says when it is asked for the k-th time, from 0. Where it stays, at an end or a no, it says the same
// each time.
fn call_at(from: GateReader, index: usize) -> Step
    ensures { CallIs from.entry.text.now from.entry.at index result }
{
    let mut reader = from;
    for _ in 0..index {
        let c = ask(reader);
        if c.then.at == reader.at {
            return c.step;
        }
        reader = c.then;
    }
    reader.current()
}

/// What the reader of a text says when it is asked for the k-th time, from 0; a refused opening gives its number.
pub fn kth(text: &[u8], index: usize, sizes: Sizes) -> Step
    ensures { ReaderIs (limits_of_masked sizes) text.now index result }
{
    let mut inputs = [0u32; 17];
    let mut outputs = [0u32; 16];
    let (_, reader) = open_at(text, &mut inputs, &mut outputs, sizes)?;
    call_at(reader, index)
}
