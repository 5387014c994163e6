//! How many cases of a group agreed, and the line that a test program prints for a group.
ghost use Rattle.std.specs.Prelude.{◌≡◌, ◌+◌, ◌%◌, ◌^◌, cond};
ghost use Rattle.writer.specs.Wrote.{Wrote};
ghost use Rattle.program.specs.Line.{tally_line};

/// How many cases of a group agreed, and how many it has.
#[derive(Clone, Copy, Default)]
pub struct Score {
    pub agreed: usize,
    pub cases: usize,
}

impl Score {
    /// A group of one case.
    pub fn of(agrees: bool) -> Self
        ensures agreed { result.agreed ≡ cond agrees 1 0 }
        ensures cases { result.cases ≡ 1 }
    {
        Score {
            agreed: usize::from(agrees),
            cases: 1,
        }
    }

    /// Two groups as one.
    pub fn join(self, other: Score) -> Self
        ensures agreed { result.agreed ≡ (self.agreed + other.agreed) % 2 ^ 64 }
        ensures cases { result.cases ≡ (self.cases + other.cases) % 2 ^ 64 }
    {
        Score {
            agreed: self.agreed.wrapping_add(other.agreed),
            cases: self.cases.wrapping_add(other.cases),
        }
    }

    /// One case more.
    pub fn case(self, agrees: bool) -> Self
        ensures agreed { result.agreed ≡ (self.agreed + cond agrees 1 0) % 2 ^ 64 }
        ensures cases { result.cases ≡ (self.cases + 1) % 2 ^ 64 }
    {
        self.join(Score::of(agrees))
    }
}

/// A group's name, how many of its cases agreed, and how many it has.
pub fn line(out: &mut [u8], name: &[u8], score: Score) -> usize
    ensures { Wrote out.old 0 (tally_line name.now score.agreed score.cases) out.new result }
{
    let a = writer::bytes(out, 0, name);
    let b = writer::bytes(out, a, b": ");
    let c = writer::number(out, b, score.agreed);
    let d = writer::bytes(out, c, b" of ");
    let e = writer::number(out, d, score.cases);
    writer::put(out, e, b'\n')
}
