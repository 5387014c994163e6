//! The bits of one wire, in all settings, as a table of bytes.
ghost use Rattle.std.specs.Prelude.{◌≡◌, true, ℕ, ◌+◌, ◌*◌, ◌^◌, ◌<◌, ◌≤◌, Bool, length, get_or};
ghost use Rattle.netlist.specs.Netlist.{Netlist};
ghost use Rattle.netlist.specs.Eval.{bit, bits_at, wire_bits};
ghost use Rattle.masking.specs.Calls.{max_checked};
ghost use Rattle.gates.specs.Gates.{WiredGates, HoldsGates};
ghost use Rattle.evaluate.specs.Bare.{bare_of};
ghost use Rattle.leak_search.specs.Block.{inputs_at};
ghost use Rattle.leak_search.specs.Difference.{max_blocks};
ghost use Rattle.explain.specs.Table.{Bits, Stored};
ghost use Rattle.explain.specs.Wire.{wire_bit, variables};

use gates::Gates;
use gates::entries::put;
use leak_search::block::Blocks;
use leak_search::{paint, search};
use questions::codes::Codes;

/// Two to a power.
pub fn power(exponent: usize) -> usize
    requires { exponent < 64 }
    ensures { result ≡ 2 ^ exponent }
{
    1 << exponent
}

// The lanes of a word as bytes, from an entry of a table on, where it is long enough.
fn store(word: u64, from: usize, table: &mut [u8])
    requires { from < 2 ^ 32 }
    ensures { Stored word from table.old table.new }
{
    for j in 0..64 {
        put(table, from + j, ((word >> j) & 1) as u8);
    }
}

// The bits of a wire in the settings of these blocks, or in their bases, as far as the table goes.
fn lay(
    gates: Gates,
    paints: &[u8],
    wire: usize,
    secrets: bool,
    blocks: u64,
    words: &mut [u64],
    table: &mut [u8],
)
    requires wired { WiredGates gates (length words.old) × (wire < length words.old) }
    requires lengths { (length paints.now + 2 ≤ length words.old) × (blocks < max_blocks) }
    ensures { let N = bare_of gates.entry (length words.old) in (i : ℕ) → i < length table.old → i < blocks * 64
        → get_or table.new i 0 ≡ bit (bits_at (wire_bits N (inputs_at secrets paints.now i)) wire) }
{
    let b = Blocks {
        gates,
        paints,
        publics: false,
    };
    for block in 0..blocks {
        b.run(secrets, block, words);
        store(words[wire], 64 * block as usize, table);
    }
}

/// The bits of a wire of the gates' netlist in all settings, or in their bases, one for each number of a setting and of
/// the mask pair. The words, one entry for each wire, are working store.
pub fn bits(
    gates: Gates,
    codes: Codes,
    wire: usize,
    secrets: bool,
    words: &mut [u64],
    table: &mut [u8],
)
    requires wired { WiredGates gates (length words.old) × (wire < length words.old) }
    requires lengths { (length codes.list.now ≤ max_checked) × (length codes.list.now + 2 ≤ length words.old)
        × (length table.old ≡ 2 ^ variables codes.list.now) }
    ensures { (n o : ℕ) (N : Netlist) → HoldsGates gates.entry (length words.old) n o N
        → Bits (wire_bit N secrets codes.entry.list.now wire) table.new }
{
    let mut room = [0u8; 12];
    let paints = paint::each(codes, &mut room);
    let blocks = search::blocks_of(codes.list.len());
    lay(gates, paints, wire, secrets, blocks, words, table);
}
