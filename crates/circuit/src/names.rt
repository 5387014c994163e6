//! The file of names beside a netlist: a line for each input and output value with its name and width, for each wire
//! that has a name, and for the wires that are judged.
//!
//! ```text
//! wires 35
//! input x 4
//! input masks 2
//! output y 4
//! wire 7 sum 12
//! judged 0 1 2 3 7
//! ```
//!
//! A `wire` line has the wire, its name, and the line of the file that it came from. There is no order, and `#`
//! begins a comment.

use crate::wires::is_plain;
use crate::{Circuit, Label, Port};
use std::alloc::{AllocError, AllocFailed, Global};
use std::fmt::Write;
use thiserror::Error;

/// Why a text is no file of names, or not that of a netlist.
#[derive(Clone, Copy, Debug, PartialEq, Eq, Error)]
pub enum NamesError {
    #[error("out of memory")]
    Memory,
    #[error("line {line}: `wires N`, `input NAME WIDTH`, `output NAME WIDTH`, `wire N NAME LINE` or `judged N ..`")]
    Line {
        line: usize,
    },
    #[error("the names are of a netlist of {names} wires, and this one has {netlist}")]
    Wires {
        names: u32,
        netlist: u32,
    },
    #[error("the names are of {names} inputs, and the netlist has {netlist}")]
    Inputs {
        names: usize,
        netlist: usize,
    },
    #[error("the names are of {names} outputs, and the netlist has {netlist}")]
    Outputs {
        names: usize,
        netlist: usize,
    },
    #[error("value {place} has {names} bits by its name, and {netlist} in the netlist")]
    Width {
        place: usize,
        names: u32,
        netlist: u32,
    },
}

impl From<AllocError> for NamesError {
    fn from(_error: AllocError) -> Self {
        NamesError::Memory
    }
}

impl<T: Drop> From<AllocFailed<T>> for NamesError {
    fn from(_error: AllocFailed<T>) -> Self {
        NamesError::Memory
    }
}

/// What a file of names says.
#[derive(Debug, Drop)]
pub struct Names {
    pub wires: u32,
    pub inputs: Vec<Port>,
    pub outputs: Vec<Port>,
    pub labels: Vec<Label>,
    pub judged: Vec<u32>,
}

/// Writes the lines of values.
fn write_ports(out: &mut String, word: &str, ports: &[Port]) -> Result<(), AllocError> {
    for port in ports {
        let name = port.name.as_str();
        let width = port.width;
        writeln!(out, "{word} {name} {width}")?;
    }
    Ok(())
}

/// The file of a circuit's names. Labels that are not plain are left out.
pub fn write(alloc: Global, circuit: &Circuit) -> Result<String, AllocError> {
    let wires = circuit.wires;
    let mut out = format!(in alloc; "wires {wires}\n")?;
    write_ports(&mut out, "input", &circuit.inputs)?;
    write_ports(&mut out, "output", &circuit.outputs)?;
    for label in &circuit.labels {
        let name = label.name.as_str();
        let wire = label.wire;
        let line = label.line;
        if is_plain(name) && !name.is_empty() {
            writeln!(out, "wire {wire} {name} {line}")?;
        }
    }
    out.push_str("judged")?;
    for wire in &circuit.judged {
        write!(out, " {wire}")?;
    }
    out.push('\n')?;
    Ok(out)
}

/// The number that a word of a line spells.
fn number(word: &str, line: usize) -> Result<u32, NamesError> {
    word.parse::<u32>().map_err(|_| NamesError::Line { line })
}

impl Names {
    /// Takes a value.
    fn add_port(
        alloc: Global,
        ports: &mut Vec<Port>,
        words: &[&str],
        line: usize,
    ) -> Result<(), NamesError> {
        match words {
            [_, name, width] if is_plain(name) => {
                ports.push(Port {
                    name: String::from_str(alloc, name)?,
                    width: number(width, line)?,
                })?;
                Ok(())
            }
            _ => Err(NamesError::Line { line }),
        }
    }

    /// Takes the name of a wire.
    fn add_label(&mut self, alloc: Global, words: &[&str], line: usize) -> Result<(), NamesError> {
        match words {
            [_, wire, name, source] if is_plain(name) => {
                self.labels.push(Label {
                    wire: number(wire, line)?,
                    name: String::from_str(alloc, name)?,
                    line: number(source, line)?,
                })?;
                Ok(())
            }
            _ => Err(NamesError::Line { line }),
        }
    }

    /// Takes a line.
    fn add(&mut self, alloc: Global, words: &[&str], line: usize) -> Result<(), NamesError> {
        match words {
            [] => Ok(()),
            ["wires", count] => {
                self.wires = number(count, line)?;
                Ok(())
            }
            ["input", ..] => Names::add_port(alloc, &mut self.inputs, words, line),
            ["output", ..] => Names::add_port(alloc, &mut self.outputs, words, line),
            ["wire", ..] => self.add_label(alloc, words, line),
            ["judged", wires @ ..] => {
                for wire in wires {
                    self.judged.push(number(wire, line)?)?;
                }
                Ok(())
            }
            _ => Err(NamesError::Line { line }),
        }
    }
}

/// What a text of names says.
pub fn read(alloc: Global, text: &str) -> Result<Names, NamesError> {
    let mut names = Names {
        wires: 0,
        inputs: Vec::new(alloc),
        outputs: Vec::new(alloc),
        labels: Vec::new(alloc),
        judged: Vec::new(alloc),
    };
    for (place, line) in text.lines().enumerate() {
        let bare = match line.split_once('#') {
            Some((before, _)) => before,
            None => line,
        };
        let mut words = Vec::new(alloc);
        for word in bare.split_ascii_whitespace() {
            words.push(word)?;
        }
        names.add(alloc, &words, place.saturating_add(1))?;
    }
    Ok(names)
}

/// Asks that values have the widths of a netlist's.
fn ask_widths(names: &[Port], netlist: &[Port], first: usize) -> Result<(), NamesError> {
    for (place, (name, value)) in names.iter().zip(netlist.iter()).enumerate() {
        if name.width != value.width {
            return Err(NamesError::Width {
                place: first.saturating_add(place),
                names: name.width,
                netlist: value.width,
            });
        }
    }
    Ok(())
}

/// The circuit with these names and these judged wires, where they fit it: the wires, and the number and the widths
/// of the values. Places in the refusal count the inputs first.
pub fn named(circuit: Circuit, names: Names) -> Result<Circuit, NamesError> {
    if names.wires != circuit.wires {
        return Err(NamesError::Wires {
            names: names.wires,
            netlist: circuit.wires,
        });
    }
    if names.inputs.len() != circuit.inputs.len() {
        return Err(NamesError::Inputs {
            names: names.inputs.len(),
            netlist: circuit.inputs.len(),
        });
    }
    if names.outputs.len() != circuit.outputs.len() {
        return Err(NamesError::Outputs {
            names: names.outputs.len(),
            netlist: circuit.outputs.len(),
        });
    }
    ask_widths(&names.inputs, &circuit.inputs, 0)?;
    ask_widths(&names.outputs, &circuit.outputs, circuit.inputs.len())?;
    let Names {
        inputs,
        outputs,
        labels,
        judged,
        ..
    } = names;
    let Circuit {
        name,
        wires,
        gates,
        ..
    } = circuit;
    Ok(Circuit {
        name,
        inputs,
        outputs,
        wires,
        gates,
        labels,
        judged,
    })
}
