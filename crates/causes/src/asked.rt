//! Questions 10 to 12 of a netlist that was read.
ghost use Rattle.std.specs.Prelude.{IfOk};
ghost use Rattle.netlist.specs.Netlist.{Netlist};
ghost use Rattle.reader.specs.Tables.{HoldsNetlist};
ghost use Rattle.causes.specs.Asked.{FewCodes, Admitted};

use netlist::Refusal;
use questions::codes::Codes;
use questions::masks::ask_codes;
use reader::netlist_tables::NetlistTables;

/// Question 12: the most input bits besides the mask pair.
pub const MOST_BITS: usize = 12;

/// Questions 10 to 12, of a netlist that was read and its input codes, which are then admitted.
pub fn ask<'a>(netlist: NetlistTables, codes: &'a [u8]) -> Result<Codes<'a>, Refusal>
    ensures few { IfOk result (FewCodes codes.now netlist.entry.header.wires) }
    ensures asked { (N : Netlist) → HoldsNetlist netlist.entry N → Admitted N codes.now result }
{
    let admitted = ask_codes(netlist.header.input_bits, netlist.widths, codes)?;
    if MOST_BITS < codes.len() {
        return Err(Refusal::Settings);
    }
    Ok(admitted)
}
