//! The type of a netlist that was read. Its functions stand in lib.rt, since their contracts cite definitions that name
//! the type.
ghost use Rattle.std.specs.Prelude.{◌≡◌};
ghost use Rattle.netlist.specs.Lists.{sum};
ghost use Rattle.gates.specs.Gates.{WiredGates};

use crate::header::Header;
use gates::Gates;

/// Its header, the widths of its input values, and its gates, to read. Its laws: the gates name the header's wires, and
/// the header's input bits are those of the widths.
#[derive(Clone, Copy)]
pub struct NetlistTables<'a> {
    pub header: Header,
    pub widths: &'a [u32],
    pub gates: Gates<'a>,
    ghost wired: { WiredGates gates header.wires },
    ghost bits: { header.input_bits ≡ sum widths.now },
}
