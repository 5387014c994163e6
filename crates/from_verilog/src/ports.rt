//! The port list: every name an input or an output, each once; inputs get the first wires.
ghost use Rattle.std.specs.Prelude.{◌+◌, ◌≤◌, ◌<◌, length};
ghost use Rattle.netlist.specs.Table.{half};
ghost use Rattle.from_verilog.specs.Ports.{PortIs, PortsIs};

use crate::names::Names;
use crate::states::{State, advance};
use crate::tokens::{Kind, next};
use crate::wires::give;

/// How many inputs and outputs there are so far.
#[derive(Clone, Copy, Default)]
pub struct Ports {
    pub inputs: u32,
    pub outputs: u32,
}

// One port more, if it is an input or an output for the first time.
fn port(
    names: Names,
    states: &mut [u32],
    wires: &mut [u32],
    name: &[u8],
    ports: Ports,
) -> Option<Ports>
    requires { (length names.words.now ≤ length states.old) × (length names.words.now ≤ length wires.old)
        × (ports.inputs + 1 < half) × (ports.outputs + 1 < half) }
    ensures { PortIs names.entry.text.now names.entry.words.now (length names.entry.words.now) name.now ports.inputs
        ports.outputs
        states.old states.new wires.old wires.new result }
{
    if advance(names, states, name, State::Input, State::Readable) {
        give(names, wires, name, ports.inputs);
        return Some(Ports {
            inputs: ports.inputs + 1,
            outputs: ports.outputs,
        });
    }
    if !advance(names, states, name, State::Output, State::Port) {
        return None;
    }
    Some(Ports {
        inputs: ports.inputs,
        outputs: ports.outputs + 1,
    })
}

/// The ports from a place on, up to the end of their list.
pub fn port_list(names: Names, states: &mut [u32], wires: &mut [u32], at: usize) -> Option<Ports>
    requires { (length names.words.now ≤ length states.old) × (length names.words.now ≤ length wires.old)
        × (at ≤ length names.text.now)
        × (length names.text.now + 1 < half) }
    ensures { PortsIs names.entry.text.now names.entry.words.now (length names.entry.words.now) at states.old states.new
        wires.old wires.new result }
{
    let text = names.text;
    let mut ports = Ports::default();
    let mut token = next(text, at);
    while token.kind == Kind::Name {
        ports = port(names, states, wires, &text[token.from..token.to], ports)?;
        let comma = next(text, token.to);
        token = next(text, comma.to);
    }
    Some(ports)
}
