//! A netlist that was read, as one value for the functions that judge it or give its twins.
ghost use Rattle.netlist.specs.Table.{tables};
ghost use Rattle.reader.specs.Tables.{ReadInto, TakenFrom};

use crate::header::Header;
use crate::netlist_tables::NetlistTables;
use gates::Gates;

impl<'a> NetlistTables<'a> {
    /// The netlist of a header in the tables it was read into: its widths stand at the front of `inputs`, its gates at
    /// the front of the two others.
    pub fn new(header: Header, inputs: &'a [u32], operands: &'a [u64], results: &'a [u64]) -> Self
        requires { ReadInto header inputs.now (tables operands.now results.now) }
        ensures { TakenFrom header inputs.now (tables operands.now results.now) result }
    {
        NetlistTables {
            header,
            widths: &inputs[..header.input_values],
            gates: Gates {
                operands,
                results,
                count: header.gates as usize,
            },
        }
    }
}
