//! A netlist with how it is written.
ghost use Rattle.gates.specs.Gates.{WiredGates};

use dialect::Dialect;
use gates::Gates;

/// The gates of a netlist, the wires and the widths of its header, and the dialect of its text. Its law: the gates name
/// these wires.
#[derive(Clone, Copy)]
pub struct Form<'g, 'w> {
    pub gates: Gates<'g>,
    pub wires: usize,
    pub ins: &'w [u32],
    pub outs: &'w [u32],
    pub dialect: Dialect,
    pub ghost wired: { WiredGates gates wires },
}
