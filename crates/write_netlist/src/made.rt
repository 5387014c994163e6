//! A netlist of one input value and one output value that was made of a text in another notation: question 5 of it, and
//! its text.
ghost use Rattle.std.specs.Prelude.{[], ◌∷◌, ◌+◌, ◌^◌, ◌<◌};
ghost use Rattle.netlist.specs.Services.{Delivers};
ghost use Rattle.gates.specs.Gates.{tables_of, WiredGates};
ghost use Rattle.write_netlist.specs.Form.{form_text};
ghost use Rattle.write_netlist.specs.Admitted.{NumbersAre};

use crate::form::Form;
use dialect::Dialect;
use gates::Gates;
use netlist::{Answer, Limits, Refusal};

/// The numbers of a netlist of one input value and one output value, whose gates the tables hold.
#[derive(Clone, Copy)]
pub struct NetlistNumbers {
    pub gates: usize,
    pub wires: usize,
    pub inputs: u32,
    pub outputs: u32,
}

impl NetlistNumbers {
    /// Question 5 of a netlist of so many input bits, gates and output bits; answers its numbers.
    pub fn admitted(
        inputs: u32,
        gates: usize,
        outputs: u32,
        limits: Limits,
    ) -> Result<Self, Refusal>
        requires { inputs + gates < 2 ^ 64 }
        ensures { NumbersAre limits inputs gates outputs result }
    {
        let wires = inputs as usize + gates;
        if (limits.wires as usize) < wires || limits.inputs < 1 || limits.outputs < 1 {
            return Err(Refusal::Limits);
        }
        Ok(NetlistNumbers {
            gates,
            wires,
            inputs,
            outputs,
        })
    }
}

/// Question 14 and the text of a netlist of these numbers with these gates, whose count is that of `gates`.
pub fn write(out: &mut [u8], made: NetlistNumbers, gates: Gates) -> Answer
    requires { WiredGates gates made.wires }
    ensures { Delivers (form_text gates.entry.count made.wires (made.inputs ∷ []) (made.outputs ∷ [])
        (tables_of gates.entry))
        out.old out.new result }
{
    let f = Form {
        gates,
        wires: made.wires,
        ins: &[made.inputs],
        outs: &[made.outputs],
        dialect: Dialect::Fashion,
    };
    crate::deliver(out, f)
}
