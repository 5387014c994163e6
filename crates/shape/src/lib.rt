//! The shape of a netlist: how many values, bits, wires and gates it has. Questions 1 to 9 with the limits of a masked
//! netlist (docs/RULES.md, Questions).
#![tactic(auto)]

pub mod numbers;

ghost use Rattle.std.specs.Prelude.{◌≡◌, length, [], ◌∷◌};
ghost use Rattle.netlist.specs.Netlist.{masked_limits as limits_of_masked};
ghost use Rattle.netlist.specs.Services.{stands_for};
ghost use Rattle.shape.specs.Promise.{told as shape_told, call, Promise};

use crate::numbers::Shape;
use netlist::{Refusal, Sizes};
use reader::header::Header;

// The shape that a header tells.
fn told(header: Header) -> Shape
    ensures { result ≡ shape_told header }
{
    Shape {
        input_values: header.input_values as u64,
        output_values: header.output_values as u64,
        input_bits: header.input_bits,
        output_bits: header.output_bits,
        wires: header.wires as u64,
        gates: header.gates as u64,
    }
}

// The answer, with tables that are still to be cleared.
fn answer(
    text: &[u8],
    operands: &mut [u64],
    results: &mut [u64],
    marks: &mut [u8],
    sizes: Sizes,
) -> Result<Shape, Refusal>
    ensures { stands_for (λ s. s) result ≡ call sizes text.now operands.old results.old marks.old }
{
    let mut inputs = [0u32; 17];
    let mut outputs = [0u32; 16];
    let header = reader::whole::read(
        text,
        &mut inputs,
        &mut outputs,
        operands,
        results,
        marks,
        &[],
        sizes.masked_limits(),
    )?;
    Ok(told(header))
}

/// The shape of the netlist in `text`. The tables, of any content, are zero on return.
pub fn shape(
    text: &[u8],
    operands: &mut [u64],
    results: &mut [u64],
    marks: &mut [u8],
    sizes: Sizes,
) -> Result<Shape, Refusal>
    ensures { Promise sizes text.now operands.old operands.new results.old results.new marks.old marks.new result }
{
    let shape = answer(text, operands, results, marks, sizes);
    operands.fill(0);
    results.fill(0);
    marks.fill(0);
    shape
}
