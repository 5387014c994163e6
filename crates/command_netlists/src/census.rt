//! What a netlist is made of: its gates by kind, and how deep they stand.

use netlist::{Gate, Refusal, Sizes};
use reader::reader_opening::open_at;
use std::alloc::{AllocError, Global};

/// How many gates of each kind there are, and the longest ways through them.
#[derive(Clone, Copy, Debug, Default, PartialEq, Eq)]
pub struct Census {
    /// XOR gates
    pub xor: usize,
    /// AND gates
    pub and: usize,
    /// INV gates
    pub inv: usize,
    /// EQW gates
    pub eqw: usize,
    /// EQ gates
    pub eq: usize,
    /// the most gates on a way from an input to a wire
    pub depth: u32,
    /// the most AND gates on such a way
    pub and_depth: u32,
}

/// How many gates, and how many ANDs, stand before a wire.
#[derive(Clone, Copy, Debug, Default)]
struct Depth {
    gates: u32,
    ands: u32,
}

impl Depth {
    fn or(self, other: Depth) -> Depth {
        Depth {
            gates: self.gates.max(other.gates),
            ands: self.ands.max(other.ands),
        }
    }

    fn after(self, ands: u32) -> Depth {
        Depth {
            gates: self.gates.saturating_add(1),
            ands: self.ands.saturating_add(ands),
        }
    }
}

fn depth_at(depths: &[Depth], wire: u32) -> Depth {
    depths.get(wire as usize).copied().unwrap_or_default()
}

/// The depth of a gate's result, and its wire.
fn depth_of(depths: &[Depth], gate: Gate) -> (u32, Depth) {
    match gate {
        Gate::Xor(first, second, result) => {
            (
                result,
                depth_at(depths, first)
                    .or(depth_at(depths, second))
                    .after(0),
            )
        }
        Gate::And(first, second, result) => {
            (
                result,
                depth_at(depths, first)
                    .or(depth_at(depths, second))
                    .after(1),
            )
        }
        Gate::Inv(first, result) | Gate::Eqw(first, result) => (
            result,
            depth_at(depths, first).after(0),
        ),
        Gate::Eq(_, result) => (result, Depth::default().after(0)),
    }
}

impl Census {
    fn count(mut self, gate: Gate) -> Census {
        match gate {
            Gate::Xor(..) => self.xor = self.xor.saturating_add(1),
            Gate::And(..) => self.and = self.and.saturating_add(1),
            Gate::Inv(..) => self.inv = self.inv.saturating_add(1),
            Gate::Eqw(..) => self.eqw = self.eqw.saturating_add(1),
            Gate::Eq(..) => self.eq = self.eq.saturating_add(1),
        }
        self
    }

    fn reach(mut self, depth: Depth) -> Census {
        self.depth = self.depth.max(depth.gates);
        self.and_depth = self.and_depth.max(depth.ands);
        self
    }
}

/// The census of a netlist, by questions 2 to 7 with the limits for whole ciphers. Operands and results are not asked.
pub fn census_of(alloc: Global, text: &[u8]) -> Result<Result<Census, Refusal>, AllocError> {
    let mut input_widths = [0u32; 17];
    let mut output_widths = [0u32; 16];
    let opened = open_at(text, &mut input_widths, &mut output_widths, Sizes::Whole);
    let (header, mut reader) = match opened {
        Ok(opened) => opened,
        Err(question) => return Ok(Err(question)),
    };
    let mut depths = vec![in alloc; Depth::default(); header.wires as usize]?;
    let mut census = Census::default();
    for _ in 0..header.gates {
        let step = reader.current();
        match step {
            Ok(Some((gate, _))) => {
                let (result, depth) = depth_of(depths.as_slice(), gate);
                census = census.count(gate).reach(depth);
                if let Some(entry) = depths.get_mut(result as usize) {
                    *entry = depth;
                }
            }
            Ok(None) => break,
            Err(question) => return Ok(Err(question)),
        }
        reader = reader.advance(step);
    }
    Ok(Ok(census))
}
