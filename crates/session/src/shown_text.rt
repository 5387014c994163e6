//! What a session shows: the netlist of its records as text, and masked. The records' gates go into the lent tables,
//! and the one writer and Mask go on from there.
ghost use Rattle.std.specs.Prelude.{◌+◌, ◌≤◌, ◌<◌, ◌^◌, length};
ghost use Rattle.session.specs.Parts.{GatesAre};

use crate::entries::entry;
use gates::records::SourceRecord;
use gates::{Gates, put};
use netlist::Refusal;

/// The gates of records after n input bits, which are put into the tables, and questions 7 to 9 of each.
pub fn fill<'t>(
    source: &[SourceRecord],
    count: usize,
    operands: &'t mut [u64],
    results: &'t mut [u64],
) -> Result<Gates<'t>, Refusal>
    requires { (length source.now ≤ length operands.old) × (length source.now ≤ length results.old)
        × (count + length source.now < 2 ^ 32) }
    ensures { GatesAre count source.now result }
{
    for (i, r) in source.iter().enumerate() {
        let e = entry(*r, count + i)?;
        put(operands, results, i, e);
    }
    Ok(Gates {
        operands,
        results,
        count: source.len(),
    })
}
