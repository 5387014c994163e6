//! The wires of names.
ghost use Rattle.std.specs.Prelude.{◌≡◌, ◌≤◌, length};
ghost use Rattle.from_verilog.specs.Wires.{wire_of, given};

use crate::names::Names;

/// The wire of a name; 0 for a name without an entry.
#[tactic(auto, unfolding(crate::specs::Wires::wire_of))]
pub fn wire_of(names: Names, wires: &[u32], name: &[u8]) -> u32
    requires { length names.words.now ≤ length wires.now }
    ensures { result ≡ wire_of names.entry.text.now names.entry.words.now wires.now (length names.entry.words.now)
        name.now }
{
    match names.find(name) {
        Some(i) => wires[i],
        None => 0,
    }
}

/// Gives a name a wire, where it has an entry.
#[tactic(auto, unfolding(crate::specs::Wires::given))]
pub fn give(names: Names, wires: &mut [u32], name: &[u8], wire: u32)
    requires { length names.words.now ≤ length wires.old }
    ensures { wires.new ≡ given names.entry.text.now names.entry.words.now wires.old (length names.entry.words.now)
        name.now wire }
{
    if let Some(i) = names.find(name) {
        wires[i] = wire;
    }
}
