//! How many wires the masked netlist has.
ghost use Rattle.std.specs.Prelude.{◌+◌, length};
ghost use Rattle.netlist.specs.Netlist.{Netlist};
ghost use Rattle.masking.specs.Mask.{mask_netlist};
ghost use Rattle.gates.specs.Gates.{HoldsGates, tables_of};
ghost use Rattle.mask_rule.specs.Place.{Ready};
ghost use Rattle.mask.specs.Pass.{Counted};

use gates::coded::CodedGates;

/// The wire count of the masked netlist.
pub fn count(source: CodedGates, twin_wires: &mut [u32], twin_codes: &mut [u8]) -> u32
    requires { Ready (tables_of source.gates) source.gates.count source.codes.now source.wanted.now twin_wires.old
        twin_codes.old }
    ensures { (N : Netlist) → HoldsGates source.entry.gates (length twin_wires.old)
        (length source.entry.codes.now) (length source.entry.wanted.now) N
        → Counted (mask_netlist N source.entry.codes.now source.entry.wanted.now) (length source.entry.codes.now)
        (length source.entry.wanted.now) result }
{
    let next = mask_rule::place::place_twins(source.gates, source.codes, twin_wires, twin_codes);
    next + source.wanted.len() as u32
}
