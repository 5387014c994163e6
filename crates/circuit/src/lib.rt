//! A netlist with what people want kept: the names and widths of its values, the names of its wires with the lines
//! that they came from, and the wires that are judged.
#![tactic(auto)]

pub mod fashion;
pub mod names;
pub mod wires;

use netlist::Gate;
use std::alloc::{AllocError, Global};

/// An input or output value: its name, and its width in bits.
#[derive(Debug, Drop, PartialEq, Eq)]
pub struct Port {
    pub name: String,
    pub width: u32,
}

/// The name of a wire, and the line of its file that names it, from 1 on; 0 where there is none.
#[derive(Debug, Drop, PartialEq, Eq)]
pub struct Label {
    pub wire: u32,
    pub name: String,
    pub line: u32,
}

/// A netlist: the bits of the inputs are the first wires, those of the outputs the last, and each gate stands after
/// those that give its operands. `judged` is in the order of the wires, and `labels` is in no order.
#[derive(Drop)]
pub struct Circuit {
    pub name: String,
    pub inputs: Vec<Port>,
    pub outputs: Vec<Port>,
    pub wires: u32,
    pub gates: Vec<Gate>,
    pub labels: Vec<Label>,
    pub judged: Vec<u32>,
}

/// The number of bits of values, and `u32::MAX` where there are more.
pub fn bits(ports: &[Port]) -> u32 {
    let mut bits = 0u32;
    for port in ports {
        bits = bits.saturating_add(port.width);
    }
    bits
}

/// The name of a bit of a value: the value's own where it has one bit, else with its place, as `key[3]`.
pub fn bit_name(alloc: Global, port: &Port, bit: u32) -> Result<String, AllocError> {
    let name = port.name.as_str();
    if port.width == 1 {
        return String::from_str(alloc, name);
    }
    format!(in alloc; "{name}[{bit}]")
}

/// The wire that a gate gives.
pub fn result(gate: Gate) -> u32 {
    match gate {
        Gate::Xor(_, _, result) => result,
        Gate::And(_, _, result) => result,
        Gate::Inv(_, result) => result,
        Gate::Eqw(_, result) => result,
        Gate::Eq(_, result) => result,
    }
}
