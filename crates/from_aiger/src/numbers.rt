//! A line of so many numbers, and nothing else.
ghost use Rattle.std.specs.Prelude.{◌≤◌, drop};

use crate::between::{is_stray, past_spaces};
use crate::lines::Lines;
use text::cursor::Cursor;

impl Lines<'_> {
    ghost use Rattle.from_aiger.specs.LineAnswers.{lines_left, OneBehind, FileLineIs, LineIs, OneIs};

    /// The numbers of the first line, if it holds N and nothing else, and the lines after it. Inlined, like its callers
    /// here, so that a line's numbers need not be stored and read again; the loops over lines of one number are
    /// functions of their own, so that their values stay in registers.
    #[inline(always)]
    pub fn numbers<const N: usize>(self) -> Option<([u32; N], Self)>
        ensures line { FileLineIs (drop self.entry.at self.entry.text.now) N result }
        ensures following { OneBehind self.entry result }
    {
        let mut numbers = [0u32; N];
        let mut at = past_spaces(Cursor {
            text: self.text,
            at: self.at,
        });
        for entry in numbers.iter_mut() {
            let (v, next) = at.take_number()?;
            *entry = v;
            at = past_spaces(next);
        }
        if is_stray(self.text, at.at) {
            return None;
        }
        let next = at.line_end()?;
        let following = Lines {
            text: self.text,
            at: next.at,
        };
        Some((numbers, following))
    }

    /// The numbers of the next line that is not blank, if it holds N and nothing else, and the lines after it.
    #[inline(always)]
    pub fn next_numbers<const N: usize>(self) -> Option<([u32; N], Self)>
        requires { 1 ≤ N }
        ensures line { LineIs (lines_left self.entry) N result }
        ensures following { OneBehind self.entry result }
    {
        let lines = Lines {
            text: self.text,
            at: self.to_word(),
        };
        lines.numbers()
    }

    /// The number of the next line that is not blank, if it holds one, and the lines after it.
    #[inline(always)]
    pub fn one_number(self) -> Option<(u32, Self)>
        ensures line { OneIs (lines_left self.entry) result }
        ensures following { OneBehind self.entry result }
    {
        let ([x], next) = self.next_numbers::<1>()?;
        Some((x, next))
    }
}
