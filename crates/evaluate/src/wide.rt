//! Sixty-four runs in one pass: a word for each input bit in, a word for each output bit out.
ghost use Rattle.std.specs.Prelude.{◌≡◌, ◌≤◌, length};
ghost use Rattle.netlist.specs.Netlist.{Netlist};
ghost use Rattle.gates.specs.Gates.{WiredGates, HoldsGates};
ghost use Rattle.evaluate.specs.Lane.{output_words};

use gates::Gates;
use gates::entries::copy;

/// The output words of the gates' netlist, for which `out` has a place each. The words, one for each wire, are working
/// store.
pub fn outputs(gates: Gates, list: &[u64], words: &mut [u64], out: &mut [u64])
    requires wired { WiredGates gates (length words.old) }
    requires list_in_bounds { (length list.now ≤ length words.old) × (length out.old ≤ length words.old) }
    ensures { (N : Netlist) → HoldsGates gates.entry (length words.old)
        (length list.now) (length out.old) N → out.new ≡ output_words N list.now }
{
    copy(list, &mut words[..list.len()]);
    crate::wires(gates, list.len(), words);
    let from = words.len() - out.len();
    copy(&words[from..], out);
}
