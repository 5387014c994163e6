//! The shape of a netlist for programs in C and Rust.
ghost use Rattle.std.specs.Prelude.{◌≡◌};
ghost use Rattle.netlist.specs.Services.{stands_for};
ghost use Rattle.capi.specs.Number.{sizes_of};
ghost use Rattle.capi.specs.Shapes.{shape_answer, ShapeTold};

use crate::answers::sizes;
use netlist::Refusal;
use shape::numbers::Shape;

/// A shape and 0, or the number of the question that refuses the text, and then all numbers are 0.
#[repr(C)]
#[derive(Clone, Copy, Default)]
pub struct ShapeAnswer {
    pub input_values: u64,
    pub output_values: u64,
    pub input_bits: u64,
    pub output_bits: u64,
    pub wires: u64,
    pub gates: u64,
    pub refused: u8,
}

// An answer as C reads it.
fn told(answer: Result<Shape, Refusal>) -> ShapeAnswer
    ensures { result ≡ shape_answer (stands_for (λ s. s) answer) }
{
    match answer {
        Ok(shape) => ShapeAnswer {
            input_values: shape.input_values,
            output_values: shape.output_values,
            input_bits: shape.input_bits,
            output_bits: shape.output_bits,
            wires: shape.wires,
            gates: shape.gates,
            refused: 0,
        },
        Err(question) => ShapeAnswer {
            input_values: 0,
            output_values: 0,
            input_bits: 0,
            output_bits: 0,
            wires: 0,
            gates: 0,
            refused: question.number(),
        },
    }
}

/// How many values, bits, wires and gates a netlist has.
#[unsafe(no_mangle)]
pub extern "C" fn fidrovelj_shape(
    text: &[u8],
    operands: &mut [u64],
    results: &mut [u64],
    marks: &mut [u8],
    whole: u8,
) -> ShapeAnswer
    ensures { ShapeTold (sizes_of whole) text.now operands.old operands.new results.old results.new marks.old marks.new
        result }
{
    told(shape::shape(text, operands, results, marks, sizes(whole)))
}
