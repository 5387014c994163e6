//! The gate reader: one gate after another of a lent text, without a table. The work is done by functions of a text and
//! a place in it. Those over the reader take it apart and call them. They are no `Iterator`: at an end or a no the
//! reader stays and says it again, and what it says may be asked twice.
ghost use Rattle.std.specs.Prelude.{◌≡◌, ℕ};
ghost use Rattle.netlist.specs.declared.Limits.{Limits};
ghost use Rattle.reader.specs.Calls.{AtCall, CurrentIs, AdvanceIs};

use crate::step::{Step, place_after, step_at};

/// A lent text, and the place from which its next gate line is looked for.
#[derive(Clone, Copy)]
pub struct GateReader<'a> {
    pub text: &'a [u8],
    pub at: usize,
}

impl<'a> GateReader<'a> {
    /// The reader at a place of a text.
    pub fn new(text: &'a [u8], at: usize) -> Self
        ensures { (result.text ≡ text.entry) × (result.at ≡ at)
            × ((L : Limits) (k : ℕ) → AtCall L text.now k at → AtCall L result.text.now k result.at) }
    {
        GateReader { text, at }
    }

    /// What the reader says: before its k-th call, the k-th answer.
    pub fn current(self) -> Step
        ensures { CurrentIs self.entry.text.now self.entry.at result }
    {
        step_at(self.text, self.at)
    }

    /// The reader after what it said. Behind a gate it stands before the next line, otherwise where it stood: after its
    /// k-th answer, before the next call.
    pub fn advance(self, step: Step) -> Self
        ensures { (result.text ≡ self.entry.text) × AdvanceIs self.entry.text.now self.entry.at step result.at }
    {
        let at = place_after(self.at, step);
        GateReader {
            text: self.text,
            at,
        }
    }
}
