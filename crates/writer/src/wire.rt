//! Words stored.
ghost use Rattle.std.specs.Prelude.{◌+◌, ◌≤◌, length};
ghost use Rattle.writer.specs.Packed.{text, Worded};
ghost use Rattle.writer.specs.Spilt.{Stored};

use crate::store;
use crate::word_table::Words;
use crate::words::TOP;

/// A number and the space after it.
pub fn wire(words: Words, out: &mut [u8], at: usize, number: u32) -> usize
    requires { Worded (length words.entries.now) number × (at + 8 ≤ length out.old) }
    ensures { Stored out.old at (text number) out.new result }
{
    let w = words.look(number);
    store(out, at, w.to_le_bytes());
    at + (w / TOP) as usize
}
