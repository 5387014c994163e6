//! The numbers of a netlist.

/// How many input values and output values a netlist has, how many bits each of both has together, and how many wires
/// and gates.
#[derive(Clone, Copy, Debug, PartialEq, Eq)]
pub struct Shape {
    pub input_values: u64,
    pub output_values: u64,
    pub input_bits: u64,
    pub output_bits: u64,
    pub wires: u64,
    pub gates: u64,
}
