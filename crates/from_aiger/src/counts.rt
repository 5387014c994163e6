//! The numbers of a header.
ghost use Rattle.from_aiger.specs.Counts.{LowCounts};

/// M I L O A. Their law: I, O and A are below 10^max_digits, as the numbers in a file are, so that sums of them fit.
#[derive(Clone, Copy)]
pub struct HeadNumbers {
    pub most: u32,
    pub inputs: u32,
    pub latches: u32,
    pub outputs: u32,
    pub ands: u32,
    ghost low: { LowCounts inputs outputs ands },
}
