//! The second evaluator: a reader that takes a netlist's text word by word and trusts it, and one byte a wire. It
//! shares nothing with the tool's reader, tables and evaluator: cases that are not proved are run against it.
use crate::words;
use crate::words::Cursor;

// A header: how many gates and wires there are, and how many input and output bits.
#[derive(Clone, Copy)]
pub(crate) struct Shape {
    pub(crate) gates: usize,
    pub(crate) wires: usize,
    pub(crate) ins: usize,
    pub(crate) outs: usize,
}

#[derive(Clone, Copy, Default)]
enum Kind {
    Xor,
    And,
    Inv,
    Eqw,
    #[default]
    Eq,
}

impl Kind {
    // A gate's kind, by the first letter of its name and, for EQ, by its length.
    fn of(name: &[u8]) -> Kind {
        if name.len() == 2 {
            return Kind::Eq;
        }
        match words::byte(name, 0) {
            b'X' => Kind::Xor,
            b'A' => Kind::And,
            b'I' => Kind::Inv,
            _ => Kind::Eqw,
        }
    }
}

// A gate, with the wires of its operands, one operand on both sides, and of its result. EQ has its constant as operand.
#[derive(Clone, Copy, Default)]
pub(crate) struct Gate {
    kind: Kind,
    left: usize,
    right: usize,
    result: usize,
}

// A digit after a number of at most six digits.
fn digit(count: usize, byte: u8) -> usize {
    if count < 1000000 {
        if b'0' <= byte {
            return count * 10 + (byte - b'0') as usize;
        }
    }
    0
}

fn number(word: &[u8]) -> usize {
    let mut n = 0;
    for b in word {
        n = digit(n, *b);
    }
    n
}

// The next word as a number, and the place after it.
fn next(at: Cursor) -> (usize, Cursor) {
    (number(at.word()), at.following())
}

// A header line of values: the sum of the widths.
fn bits(at: Cursor) -> (usize, Cursor) {
    let (values, mut place) = next(at);
    let mut sum: usize = 0;
    for _ in 0..values {
        let (width, following) = next(place);
        sum = sum.wrapping_add(width);
        place = following;
    }
    (sum, place)
}

// A text's header, and where the gates begin.
pub(crate) fn header(text: &[u8]) -> (Shape, Cursor) {
    let (gates, at) = next(Cursor::start(text));
    let (wires, at) = next(at);
    let (ins, at) = bits(at);
    let (outs, at) = bits(at);
    let shape = Shape {
        gates,
        wires,
        ins,
        outs,
    };
    (shape, at)
}

// The gate of a line, which begins with how many operands there are, and the place after the line.
fn line(at: Cursor) -> (Gate, Cursor) {
    let (operands, at) = next(at);
    let (_, at) = next(at);
    let (left, at) = next(at);
    let (right, at) = if operands == 2 { next(at) } else { (left, at) };
    let (result, at) = next(at);
    let gate = Gate {
        kind: Kind::of(at.word()),
        left,
        right,
        result,
    };
    (gate, at.following())
}

// The netlist of a text, whose gates go to the front of a table.
pub(crate) fn read<'g>(text: &[u8], gates: &'g mut [Gate]) -> Circuit<'g> {
    let (shape, mut at) = header(text);
    for entry in gates.iter_mut().take(shape.gates) {
        (*entry, at) = line(at);
    }
    Circuit { shape, gates }
}

impl Gate {
    // The bit of the result.
    fn bit(self, wires: &[u8]) -> u8 {
        let a = words::byte(wires, self.left);
        let b = words::byte(wires, self.right);
        match self.kind {
            Kind::Xor => a ^ b,
            Kind::And => a & b,
            Kind::Inv => 1 ^ a,
            Kind::Eqw => a,
            Kind::Eq => u8::from(self.left == 1),
        }
    }
}

// A netlist: its header, and a table with its gates at the front.
#[derive(Clone, Copy)]
pub(crate) struct Circuit<'g> {
    pub(crate) shape: Shape,
    pub(crate) gates: &'g [Gate],
}

impl Circuit<'_> {
    // Every wire, from the input bits at the front.
    pub(crate) fn run(self, wires: &mut [u8]) {
        for gate in self.gates.iter().take(self.shape.gates) {
            words::put(wires, gate.result, gate.bit(wires));
        }
    }
}
