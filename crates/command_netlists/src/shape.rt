//! The header of a netlist.

use netlist::{Refusal, Sizes};
use reader::reader_opening::open_at;
use std::alloc::{AllocError, Global};

/// What a header says: how many wires and gates there are, and the widths of the values.
#[derive(Debug, Drop)]
pub struct Shape {
    /// the wires
    pub wires: usize,
    /// the gates
    pub gates: usize,
    /// the width of each input value
    pub inputs: Vec<u32>,
    /// the width of each output value
    pub outputs: Vec<u32>,
}

impl Shape {
    /// The widths of the input values before the mask pair, where the last value is one.
    pub fn source_inputs(&self) -> Option<&[u32]> {
        match self.inputs.as_slice() {
            [_, .., 2] => self.inputs.get(..self.inputs.len().saturating_sub(1)),
            _ => None,
        }
    }
}

/// The shape of a netlist, by questions 2 to 6 with the limits for whole ciphers (docs/RULES.md, Header and gate
/// lines; Sizes).
pub fn read_shape(alloc: Global, text: &[u8]) -> Result<Result<Shape, Refusal>, AllocError> {
    let mut input_widths = [0u32; 17];
    let mut output_widths = [0u32; 16];
    let opened = open_at(text, &mut input_widths, &mut output_widths, Sizes::Whole);
    let (header, _) = match opened {
        Ok(opened) => opened,
        Err(question) => return Ok(Err(question)),
    };
    let inputs = header.input_values.min(input_widths.len());
    let outputs = header.output_values.min(output_widths.len());
    Ok(Ok(Shape {
        wires: header.wires as usize,
        gates: header.gates as usize,
        inputs: input_widths[..inputs].to_vec(alloc)?,
        outputs: output_widths[..outputs].to_vec(alloc)?,
    }))
}
