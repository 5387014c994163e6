//! Gates as records, in lists that a caller lends: a gate alone, and a source gate with where its result stands in the
//! masked netlist. A kind has its number of `gate_table`, but EQ 1, which has 6 there, has 5 here as EQ 0 has: the
//! operand of an EQ is its constant. A gate of one operand has 0 as its second.
ghost use Rattle.std.specs.Prelude.{◌≡◌};

use crate::Kind;
use netlist::{Gate, Refusal, Twin};

/// One gate.
#[repr(C)]
#[derive(Clone, Copy)]
pub struct GateRecord {
    pub kind: u32,
    pub first: u32,
    pub second: u32,
    pub result: u32,
}

/// A source gate: its gate, the wire that its result stands on in the masked netlist and the code of the mask on it,
/// and the place of its first masked gate among the masked gates. Flat, with no `GateRecord` inside: it is a struct of
/// the C interface, whose fields C's header names one by one.
#[repr(C)]
#[derive(Clone, Copy, Default)]
pub struct SourceRecord {
    pub kind: u32,
    pub first: u32,
    pub second: u32,
    pub result: u32,
    pub wire: u32,
    pub from: u32,
    pub code: u8,
}

impl From<Gate> for GateRecord {
    ghost use Rattle.gates.specs.Records.{record_of};

    ghost from_gives = { λ g r. r ≡ record_of g };

    fn from(gate: Gate) -> Self {
        let (kind, first, second, result) = match gate {
            Gate::Xor(a, b, c) => (1, a, b, c),
            Gate::And(a, b, c) => (2, a, b, c),
            Gate::Inv(a, c) => (3, a, 0, c),
            Gate::Eqw(a, c) => (4, a, 0, c),
            Gate::Eq(v, c) => (5, v, 0, c),
        };
        GateRecord {
            kind,
            first,
            second,
            result,
        }
    }
}

// The kind of a record's gate, or the no of question 7: a gate of one operand has 0 as its second.
impl TryFrom<GateRecord> for Kind {
    type Error = Refusal;

    ghost use Rattle.gates.specs.Records.{KindIs};

    ghost try_from_gives = { KindIs };

    fn try_from(gate: GateRecord) -> Result<Self, Refusal> {
        match (gate.kind, gate.second) {
            (1, _) => Ok(Kind::Xor),
            (2, _) => Ok(Kind::And),
            (3, 0) => Ok(Kind::Inv),
            (4, 0) => Ok(Kind::Eqw),
            (5, 0) => Ok(Kind::Eq(gate.first)),
            _ => Err(Refusal::Line),
        }
    }
}

impl From<SourceRecord> for GateRecord {
    ghost use Rattle.gates.specs.Records.{gate_in};

    ghost from_gives = { λ r g. g ≡ gate_in r };

    fn from(source: SourceRecord) -> Self {
        GateRecord {
            kind: source.kind,
            first: source.first,
            second: source.second,
            result: source.result,
        }
    }
}

impl GateRecord {
    ghost use Rattle.gates.specs.Records.{source_record};

    /// The source gate of this record, with its result's twin and the place of its first masked gate.
    pub fn source(self, twin: Twin, from: u32) -> SourceRecord
        ensures { result ≡ source_record self twin from }
    {
        SourceRecord {
            kind: self.kind,
            first: self.first,
            second: self.second,
            result: self.result,
            wire: twin.wire,
            from,
            code: twin.code,
        }
    }
}

impl SourceRecord {
    ghost use Rattle.gates.specs.Records.{twin_in};

    /// Its result's twin.
    pub fn twin(self) -> Twin
        ensures { result ≡ twin_in self }
    {
        Twin {
            wire: self.wire,
            code: self.code,
        }
    }
}
