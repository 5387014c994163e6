//! The states of names, which only rise.
ghost use Rattle.std.specs.Prelude.{◌≡◌, ◌≤◌, ◌<◌, eqb, leb, length};
ghost use Rattle.from_verilog.specs.Wires.{wire_of};
ghost use Rattle.netlist.specs.Lists.{every};
ghost use Rattle.from_verilog.specs.States.{state_number, becomes};

use crate::names::Names;

/// An input, an output or a wire as declared; an output that is a port, not yet assigned; a name that may be read, and
/// an output that may be read.
#[derive(Clone, Copy)]
pub enum State {
    Input = 1,
    Output,
    Wire,
    Port,
    Readable,
    ReadableOutput,
}

impl State {
    /// The number that a table of states holds for it.
    pub fn number(self) -> u32
        ensures { result ≡ state_number self }
    {
        self as u32
    }
}

/// Takes a name from one state to another; says whether it was in the first.
pub fn advance(names: Names, states: &mut [u32], name: &[u8], old: State, new: State) -> bool
    requires { length names.words.now ≤ length states.old }
    ensures said { result ≡ eqb (wire_of names.entry.text.now names.entry.words.now states.old
        (length names.entry.words.now) name.now) (state_number old) }
    ensures moved { states.new ≡ becomes names.entry.text.now names.entry.words.now states.old
        (length names.entry.words.now) name.now (state_number old)
        (state_number new) }
{
    match names.find(name) {
        Some(i) if states[i] == old.number() => {
            states[i] = new.number();
            true
        }
        _ => false,
    }
}

/// Whether all states are at least one.
pub fn all_from(states: &[u32], least: State) -> bool
    ensures { result ≡ every (leb (state_number least)) states.now }
{
    let least = least.number();
    states.iter().all(|s| least <= *s)
}
