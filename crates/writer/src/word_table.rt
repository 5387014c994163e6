//! The table of words.
ghost use Rattle.std.specs.Prelude.{◌≡◌, ◌<◌, ◌≤◌, ◌+◌, ◌*◌, length, None, IfSome};
ghost use Rattle.writer.specs.Packed.{packed, Filled, Tens, WordTable, Worded, entries_for};

use crate::words::TOP;

// The bytes of a text: the digit 0, and the space after a number.
const ZERO: u64 = 48;

const SPACE: u64 = 32;

// What the second, the third and the fourth byte of a word count.
const SECOND: u64 = 256;

const THIRD: u64 = 65536;

const FOURTH: u64 = 16777216;

// Ten entries from `at` on: words that rise by `unit`, and what three digits add, which rises in its third byte. By
// places, since an entry of each half is told at once.
fn ones(table: &mut [u64], at: usize, word: u64, unit: u64, added: u64)
    requires { Filled table.old at × Tens at word unit added }
    ensures { Filled table.new (at + 10) }
{
    for i in 0..10 {
        let k = i as u64;
        table[at + i] = word + unit * k;
        table[1000 + at + i] = added + THIRD * k;
    }
}

// The ten entries of the numbers that begin with the digits of t: the texts "0 ", "t0 " or "tt0 " with their lengths,
// of which the last digit rises, and what the digits "tt0 " add to a word in the place of its space.
fn ten(table: &mut [u64], tens: usize)
    requires { Filled table.old (10 * tens) × (tens < 100) }
    ensures { Filled table.new (10 * tens + 10) }
{
    let n = tens as u64;
    let high = n / 10 + (ZERO + n % 10) * SECOND + ZERO * THIRD + SPACE * FOURTH;
    let (word, unit) = match tens {
        0 => (ZERO + SPACE * SECOND + 2 * TOP, 1),
        1..=9 => (ZERO + n + ZERO * SECOND + SPACE * THIRD + 3 * TOP, SECOND),
        _ => (ZERO + high + 4 * TOP, THIRD),
    };
    ones(table, 10 * tens, word, unit, ZERO - SPACE + high);
}

/// The entries of so many tens, a hundred being all.
pub fn fill(table: &mut [u64], tens: usize)
    requires { (length table.old ≡ 2000) × (tens ≤ 100) }
    ensures { Filled table.new (10 * tens) }
{
    for t in 0..tens {
        ten(table, t);
    }
}

/// A filled table, to read.
#[derive(Clone, Copy)]
pub struct Words<'t> {
    pub entries: &'t [u64],
    ghost filled: { WordTable entries.now },
}

impl<'t> Words<'t> {
    /// The empty table, for a netlist of up to a hundred wires, where no line is stored by words: so a small call
    /// clears no array for them. By `if`, since the contract has a clause for each answer.
    pub fn none_for(wires: usize) -> Option<Self>
        ensures none { result ≡ None → 100 < wires }
        ensures some { IfSome result (λ w. (wires ≤ 100) × (length w.entries.now ≡ 0)) }
    {
        if wires <= 100 {
            Some(Words { entries: &[] })
        } else {
            None
        }
    }

    /// The words that the lines of a netlist of so many wires take, in a lent array of any content: none up to a
    /// hundred wires, those of the wires up to a thousand, and else all.
    pub fn of(table: &'t mut [u64; 2000], wires: usize) -> Self
        ensures { length result.entries.now ≡ entries_for wires }
    {
        let entries = match wires {
            0..=100 => 0,
            101..=1000 => (wires + 9) / 10 * 10,
            _ => 2000,
        };
        fill(table, usize::min(entries, 1000) / 10);
        Words {
            entries: &table[..entries],
        }
    }

    /// The word of a number: its own below a thousand, and else that of its thousands, whose space, the last of the
    /// text, gives way to three digits and a space.
    pub fn look(self, number: u32) -> u64
        requires { Worded (length self.entries.now) number }
        ensures { result ≡ packed number }
    {
        let d = self.entries;
        if number < 1000 {
            return d[number as usize];
        }
        let word = d[(number / 1000) as usize];
        let added = d[(1000 + number % 1000) as usize];
        word + (added << 8 * (word / TOP - 1)) + 3 * TOP
    }
}
