//! The numbers of a seam.
ghost use Rattle.join.specs.Seams.{Meeting};

/// Those of two netlists that are joined; input bits include the mask pair. Their law: the first's output bits and a
/// mask pair are as many as the second's input bits, as question 25 asks, these bits are wires, and the numbers of the
/// joined wires fit half an entry.
#[derive(Clone, Copy)]
pub struct SeamNumbers {
    /// the first's wires, output bits and input bits
    pub wires: u32,
    pub outs: u32,
    pub ins: u32,
    /// the second's wires and input bits
    pub second: u32,
    pub inner: u32,
    pub ghost meeting: { Meeting wires outs ins second inner },
}
