//! A record's gate as table entries.
ghost use Rattle.session.specs.Parts.{RecordIs};

use crate::adding::gate_good;
use gates::records::{GateRecord, SourceRecord};
use gates::{Entry, GateNumbers};
use netlist::Refusal;

/// Questions 7 to 9 of a record that is to give the next wire, and the entries of its gate.
pub fn entry(source: SourceRecord, next: usize) -> Result<Entry, Refusal>
    ensures { RecordIs source next result }
{
    let g = GateRecord::from(source);
    let kind = gate_good(g, next)?;
    Ok(Entry::from(GateNumbers {
        kind,
        left: source.first,
        right: source.second,
        result: source.result,
    }))
}
