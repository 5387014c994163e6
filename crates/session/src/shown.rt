//! A session that questions 1 and 4 to 6 admit.
ghost use Rattle.session.specs.Counted.{Counted};

use reader::header::Header;

/// The header of a session's netlist, and the widths of its input and of its output values. Its law: at most sixteen
/// values of each kind, the bits are the sums of the widths, there is a wire for each input bit and each gate, and
/// wires and output bits are within the greater limits. The header's own numbers of values are as `ask` makes them, and
/// stand in no law.
#[derive(Clone, Copy)]
pub struct Shown<'a> {
    pub header: Header,
    pub widths: &'a [u32],
    pub outputs: &'a [u32],
    pub ghost counted: { Counted widths.now outputs.now header },
}
