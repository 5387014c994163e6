//! A netlist on its vectors: the service Run and the second evaluator, each against the vector's outputs.
use crate::second::{Circuit, Shape};
use crate::words::Cursor;
use crate::{buffers, codes, second, services, words};
use program::report::Score;

// The vectors of a file: the first of it, and one of each `step` lines after.
#[derive(Clone, Copy)]
pub(crate) struct Vectors<'v> {
    pub(crate) file: &'v [u8],
    pub(crate) step: usize,
}

// The codes of a netlist's input and output bits, and under how many mask settings a vector is tried: one for a netlist
// without masks, which has no codes either, and four for a masked one.
#[derive(Clone, Copy)]
pub(crate) struct Masking<'i, 'o> {
    pub(crate) ins: &'i [u8],
    pub(crate) outs: &'o [u8],
    pub(crate) settings: u8,
}

// A netlist as a text and as the second evaluator's, with its codes.
#[derive(Clone, Copy)]
struct Netlist<'t, 'g, 'i, 'o> {
    text: &'t [u8],
    circuit: Circuit<'g>,
    masking: Masking<'i, 'o>,
}

// The input bits and the output bits of a vector.
#[derive(Clone, Copy)]
struct Vector<'v> {
    inputs: &'v [u8],
    outputs: &'v [u8],
}

// The most lines of a file of vectors.
const LINES: usize = 4096;

impl Netlist<'_, '_, '_, '_> {
    // Whether Run gives the output bits of a vector from the input wires.
    fn run_agrees(self, list: &[u8], masks: u8, outputs: &[u8]) -> bool {
        let mut bits = buffers::list();
        services::run(self.text, list, &mut bits).is_ok_and(|n| codes::agrees(
            words::part(&bits, 0, n),
            self.masking.outs,
            masks,
            outputs,
        ))
    }

    // Whether the last wires are the output bits of a vector.
    fn end_agrees(self, wires: &[u8], masks: u8, outputs: &[u8]) -> bool {
        let Shape {
            wires: all,
            outs,
            ..
        } = self.circuit.shape;
        let bits = words::part(wires, all.wrapping_sub(outs), all);
        codes::agrees(bits, self.masking.outs, masks, outputs)
    }

    // Whether Run and the second evaluator give the output bits of a vector under one mask setting.
    fn both_agree(self, vector: Vector, masks: u8, wires: &mut [u8]) -> bool {
        codes::settle(wires, vector.inputs, self.masking.ins, masks);
        let list = words::part(wires, 0, self.circuit.shape.ins);
        let served = self.run_agrees(list, masks, vector.outputs);
        self.circuit.run(wires);
        served && self.end_agrees(wires, masks, vector.outputs)
    }

    // One vector under the first mask settings.
    fn vector(self, vector: Vector, settings: u8, wires: &mut [u8]) -> Score {
        let mut s = Score::default();
        for m in 0..settings {
            s = s.case(self.both_agree(vector, m, wires));
        }
        s
    }

    fn vectors(self, vectors: Vectors, wires: &mut [u8]) -> Score {
        let mut s = Score::default();
        let mut line = Cursor::start(vectors.file);
        for i in 0..LINES {
            let middle = line.following();
            let vector = Vector {
                inputs: line.word(),
                outputs: middle.word(),
            };
            let settings = vectors.settings(vector, i, self.masking.settings);
            s = s.join(self.vector(vector, settings, wires));
            // a label ends the line
            line = middle.following().following();
        }
        s
    }
}

impl Vectors<'_> {
    // Under how many mask settings the i-th vector is tried: none unless it is there and one of each `step`.
    fn settings(self, vector: Vector, index: usize, settings: u8) -> u8 {
        if vector.inputs.is_empty() || self.step == 0 || index % self.step != 0 {
            return 0;
        }
        settings
    }
}

// The vectors of a file on a netlist, with input and output bits under its codes, under the first mask settings.
pub(crate) fn score(text: &[u8], vectors: Vectors, masking: Masking) -> Score {
    let mut gates = buffers::gates();
    let mut wires = buffers::bytes();
    let netlist = Netlist {
        text,
        circuit: second::read(text, &mut gates),
        masking,
    };
    netlist.vectors(vectors, &mut wires)
}
