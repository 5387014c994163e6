//! The twins of a source's wires, in two tables: entry w of one is the wire that source wire w stands on, entry w of
//! the other its code.
ghost use Rattle.std.specs.Prelude.{◌≡◌, ◌<◌, length, get_or, set};
ghost use Rattle.masking.specs.Mask.{no_twin};
ghost use Rattle.mask_rule.specs.State.{twins_of};

use netlist::Twin;

/// The twin of source wire w.
pub fn twin(twin_wires: &[u32], twin_codes: &[u8], wire: usize) -> Twin
    requires { (wire < length twin_wires.now) × (length twin_codes.now ≡ length twin_wires.now) }
    ensures { result ≡ get_or (twins_of twin_wires.now twin_codes.now) wire no_twin }
{
    Twin {
        wire: twin_wires[wire],
        code: twin_codes[wire],
    }
}

/// The twin of source wire w, stored.
#[inline(always)]
pub fn put(twin_wires: &mut [u32], twin_codes: &mut [u8], wire: usize, twin: Twin)
    requires { (wire < length twin_wires.old) × (wire < length twin_codes.old) }
    ensures { (twin_wires.new ≡ set twin_wires.old wire twin.wire)
        × (twin_codes.new ≡ set twin_codes.old wire twin.code) }
{
    twin_wires[wire] = twin.wire;
    twin_codes[wire] = twin.code;
}
