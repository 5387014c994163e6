//! Questions 1 to 9 of a text, with the netlist as one value for the functions that judge it or give its twins.
ghost use Rattle.std.specs.Prelude.{◌∷◌, length};
ghost use Rattle.reader.specs.Whole.{Readable};
ghost use Rattle.reader.specs.Taken.{TakenIs};

use crate::netlist_tables::NetlistTables;
use crate::whole;
use netlist::{Limits, Refusal};

/// The netlist of a text, in the lent tables, each of any content; `others` are the lengths of the lent tables that are
/// not among these.
pub fn read<'a>(
    text: &[u8],
    widths: &'a mut [u32; 17],
    operands: &'a mut [u64],
    results: &'a mut [u64],
    marks: &mut [u8],
    others: &[usize],
    limits: Limits,
) -> Result<NetlistTables<'a>, Refusal>
    requires { Readable limits }
    ensures { TakenIs limits (length operands.old ∷ length results.old ∷ length marks.old ∷ others.now) text.now
        result }
{
    let mut outputs = [0u32; 16];
    let h = whole::read(
        text,
        widths,
        &mut outputs,
        operands,
        results,
        marks,
        others,
        limits,
    )?;
    Ok(NetlistTables::new(h, widths, operands, results))
}
