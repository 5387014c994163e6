//! One run: a bit for each input bit in, a bit for each output bit out. Only lane 0 counts.
ghost use Rattle.std.specs.Prelude.{◌≡◌, ◌≤◌, length};
ghost use Rattle.netlist.specs.Netlist.{Netlist};
ghost use Rattle.netlist.specs.Services.{output_list};
ghost use Rattle.gates.specs.Gates.{WiredGates, HoldsGates};

use crate::lay;
use gates::Gates;

/// The output bits of the gates' netlist, for which `out` has a place each. The words, one for each wire, are working
/// store.
pub fn outputs(gates: Gates, bits: &[u8], words: &mut [u64], out: &mut [u8])
    requires wired { WiredGates gates (length words.old) }
    requires bits_in_bounds { (length bits.now ≤ length words.old) × (length out.old ≤ length words.old) }
    ensures { (N : Netlist) → HoldsGates gates.entry (length words.old)
        (length bits.now) (length out.old) N → out.new ≡ output_list N bits.now }
{
    lay::bits(bits, &mut words[..bits.len()]);
    crate::wires(gates, bits.len(), words);
    let from = words.len() - out.len();
    lay::low_bits(&words[from..], out);
}
