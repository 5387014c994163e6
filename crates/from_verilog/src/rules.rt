//! Question 17 of a text that question 16 admits.
ghost use Rattle.std.specs.Prelude.{◌≡◌, ◌+◌, ◌*◌, ◌≤◌, ◌<◌, length, replicate};
ghost use Rattle.netlist.specs.Table.{half};
ghost use Rattle.from_verilog.specs.Ports.{ported};
ghost use Rattle.from_verilog.specs.Kept.{PlaceIs, PortsKept, AssignsKept, RulesAre};

use crate::assigns::{assigns, past};
use crate::declarations::declarations;
use crate::names::Names;
use crate::ports::{Ports, port_list};
use crate::states::{State, all_from};
use crate::tokens::next;

/// Of a module that keeps the rules how many names it declares, how many of them are inputs and outputs, and the places
/// of its ports and of its assignments.
#[derive(Clone, Copy)]
pub struct Kept {
    pub count: usize,
    pub inputs: u32,
    pub outputs: u32,
    pub ports: usize,
    pub assigns: usize,
}

// The place of the first port: after `module`, its name and a parenthesis.
fn ports_place(text: &[u8]) -> usize
    ensures { PlaceIs text.now result }
{
    let word = next(text, 0);
    let name = next(text, word.to);
    let open = next(text, name.to);
    open.to
}

// The port list: the declared inputs and outputs, each once, and some of both.
fn ports_kept(names: Names, states: &mut [u32], wires: &mut [u32], at: usize) -> Option<Ports>
    requires { (length names.words.now ≤ length states.old) × (length names.words.now ≤ length wires.old)
        × (at ≤ length names.text.now)
        × (length names.text.now + 1 < half) }
    ensures { PortsKept names.entry.text.now names.entry.words.now (length names.entry.words.now) at states.old
        states.new
        wires.old wires.new (ported result) }
{
    let p = port_list(names, states, wires, at)?;
    if !all_from(&states[..names.words.len()], State::Wire) || p.inputs == 0 || p.outputs == 0 {
        return None;
    }
    Some(p)
}

// The assignments: each as it must be, and after them every wire and output assigned.
fn assigns_kept(names: Names, states: &mut [u32], at: usize) -> bool
    requires { (length names.words.now ≤ length states.old) × (at ≤ length names.text.now) }
    ensures { AssignsKept names.entry.text.now names.entry.words.now (length names.entry.words.now) at states.old
        states.new result }
{
    assigns(names, states, at) && all_from(&states[..names.words.len()], State::Readable)
}

/// Question 17. Of the tables `heads` and `wires` must be zero; `words` has room for as many names as a quarter of the
/// text's bytes or more, since each name that keeps the rules stands twice, with a sign after it, and the others are no
/// shorter.
pub fn rules(
    text: &[u8],
    heads: &mut [u64],
    words: &mut [u64],
    links: &mut [u64],
    states: &mut [u32],
    wires: &mut [u32],
) -> Option<Kept>
    requires cleared { (0 < length heads.old) × (heads.old ≡ replicate (length heads.old) 0)
        × (wires.old ≡ replicate (length wires.old) 0) }
    requires room { (length words.old ≤ length links.old) × (length words.old ≤ length states.old)
        × (length words.old ≤ length wires.old)
        × (length words.old < half) × (length text.now ≤ 4 * length words.old) × (length text.now + 1 < half) }
    ensures { RulesAre text.now (length heads.old) heads.new words.new links.new states.new
        wires.new result }
{
    let ports = ports_place(text);
    let items = past(text, ports);
    let d = declarations(text, heads, words, links, states, items)?;
    let names = Names {
        text,
        heads,
        words: &words[..d.count],
        links: &links[..d.count],
    };
    let p = ports_kept(names, states, wires, ports)?;
    if !assigns_kept(names, states, d.at) {
        return None;
    }
    Some(Kept {
        count: d.count,
        inputs: p.inputs,
        outputs: p.outputs,
        ports,
        assigns: d.at,
    })
}
