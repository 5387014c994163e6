//! The numbers of a header, with one fact of question 5 as their law; `HeadOf` in specs/ has what else the questions
//! say of them.
ghost use Rattle.std.specs.Prelude.{◌≤◌};

/// What such a header says, besides the widths themselves. Its law: there are no more input bits than wires.
#[derive(Clone, Copy)]
pub struct Header {
    /// the gate count
    pub gates: u32,
    /// the wire count
    pub wires: u32,
    /// how many input values, and their bits together
    pub input_values: usize,
    pub input_bits: u64,
    /// how many output values, and their bits together
    pub output_values: usize,
    pub output_bits: u64,
    pub ghost inputs_are_wires: { input_bits ≤ wires },
}
