//! A name for each wire of a circuit, no two the same.

use crate::{Circuit, Port, bit_name, bits};
use std::alloc::{AllocError, Global};
use std::collections::HashMap;

/// The names given so far, with empty texts for the wires that have none yet, and the names that are taken.
#[derive(Drop)]
struct Given {
    alloc: Global,
    names: Vec<String>,
    taken: HashMap<String, u32>,
}

/// What a taken name that is no wire's stands for.
const NO_WIRE: u32 = 0xffff_ffff;

/// Whether every notation takes a name as it is: one without white space, control characters, `#`, `=` and `\`, which
/// does not begin with a dot.
pub fn is_plain(name: &str) -> bool {
    !name.starts_with('.')
        && name.bytes().all(|byte| byte > b' '
            && byte != 127
            && byte != b'#'
            && byte != b'='
            && byte != b'\\')
}

impl Given {
    /// No name for this many wires.
    fn new(alloc: Global, wires: u32) -> Result<Self, AllocError> {
        let mut given = Given {
            alloc,
            names: Vec::new(alloc),
            taken: HashMap::new(alloc),
        };
        for _ in 0..wires {
            given.names.push(String::new(alloc))?;
        }
        Ok(given)
    }

    /// Takes a name for a wire.
    fn take(&mut self, wire: u32, name: &str) -> Result<(), AllocError> {
        let key = String::from_str(self.alloc, name)?;
        self.taken.insert(key, wire)?;
        Ok(())
    }

    /// Gives a wire a name, where it has none and the name is free and plain.
    fn give(&mut self, wire: u32, name: &str) -> Result<(), AllocError> {
        let free = is_plain(name) && !self.taken.contains_key(name);
        let Some(place) = self.names.get_mut(wire as usize) else {
            return Ok(());
        };
        if free && place.is_empty() {
            *place = String::from_str(self.alloc, name)?;
            self.take(wire, name)?;
        }
        Ok(())
    }

    /// Gives the wires from `first` on the names of the bits of values.
    fn give_ports(&mut self, ports: &[Port], first: u32) -> Result<(), AllocError> {
        let mut wire = first;
        for port in ports {
            for bit in 0..port.width {
                let name = bit_name(self.alloc, port, bit)?;
                self.give(wire, name.as_str())?;
                wire = wire.saturating_add(1);
            }
        }
        Ok(())
    }

    /// Takes the names of values and of their bits for no wire.
    fn take_ports(&mut self, ports: &[Port]) -> Result<(), AllocError> {
        for port in ports {
            self.take(NO_WIRE, port.name.as_str())?;
            for bit in 0..port.width {
                let name = bit_name(self.alloc, port, bit)?;
                self.take(NO_WIRE, name.as_str())?;
            }
        }
        Ok(())
    }

    /// `w` and the number of a wire, and as many `_` as make it a name that is not taken.
    fn fresh(&self, wire: u32) -> Result<String, AllocError> {
        let mut name = format!(in self.alloc; "w{wire}")?;
        for _ in 0..self.taken.len() {
            if !self.taken.contains_key(name.as_str()) {
                break;
            }
            name.push('_')?;
        }
        Ok(name)
    }

    /// Gives the wires from `first` on that have no name one of the circuit's labels, or their number.
    fn give_rest(&mut self, circuit: &Circuit, first: u32) -> Result<(), AllocError> {
        for label in &circuit.labels {
            if label.wire >= first {
                self.give(label.wire, label.name.as_str())?;
            }
        }
        for wire in first..circuit.wires {
            let named = self
                .names
                .get(wire as usize)
                .is_some_and(|name| !name.is_empty());
            if !named {
                let name = self.fresh(wire)?;
                self.give(wire, name.as_str())?;
            }
        }
        Ok(())
    }
}

/// The names of all wires: that of its bit of an input or output, else its label, else `w` and its number. A name
/// that another wire has, or that not every notation takes, is passed over.
pub fn wire_names(alloc: Global, circuit: &Circuit) -> Result<Vec<String>, AllocError> {
    let mut given = Given::new(alloc, circuit.wires)?;
    given.give_ports(&circuit.inputs, 0)?;
    let first = circuit.wires.saturating_sub(bits(&circuit.outputs));
    given.give_ports(&circuit.outputs, first)?;
    given.give_rest(circuit, 0)?;
    let Given { names, .. } = given;
    Ok(names)
}

/// The names of the wires that gates give, none of which is an input, an output or a bit of one. Those of the input
/// wires are empty.
pub fn inner_names(alloc: Global, circuit: &Circuit) -> Result<Vec<String>, AllocError> {
    let mut given = Given::new(alloc, circuit.wires)?;
    given.take_ports(&circuit.inputs)?;
    given.take_ports(&circuit.outputs)?;
    given.give_rest(circuit, bits(&circuit.inputs))?;
    let Given { names, .. } = given;
    Ok(names)
}
