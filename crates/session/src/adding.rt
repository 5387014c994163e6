//! Adding a gate: questions 24, 7 to 9 and 14, and what is written.
ghost use Rattle.std.specs.Prelude.{◌≡◌, List, ◌++◌, map, ◌+◌, ◌≤◌, length, get_or, ltb};
ghost use Rattle.masking.specs.Mask.{no_twin, input_twins};
ghost use Rattle.netlist.specs.Read.{operands_given};
ghost use Rattle.netlist.specs.Services.{stands_for};
ghost use Rattle.gates.specs.declared.records.GateRecord.{GateRecord as Record};
ghost use Rattle.gates.specs.Records.{gate_as, twin_in};
ghost use Rattle.session.specs.Asked.{gate_good};
ghost use Rattle.session.specs.Lists.{lists_of};
ghost use Rattle.session.specs.Plan.{first_asked, most_bits, PlanIs};

use crate::Session;
use crate::plan::publics;
use gates::Kind;
use gates::entries::entry;
use gates::records::{GateRecord, SourceRecord};
use mask_rule::codes::Next;
use netlist::{Refusal, Sizes, Twin};

/// The masked gates of a source gate of a kind, whose operands have the twins a and b: so many, at the wires from c on.
#[derive(Clone, Copy)]
pub struct Steps {
    pub kind: Kind,
    pub a: Twin,
    pub b: Twin,
    pub c: Next,
    pub count: usize,
}

/// What is written, the source record and the masked gates, and the session after.
#[derive(Clone, Copy)]
pub struct Plan {
    pub keep: SourceRecord,
    pub steps: Steps,
    pub session: Session,
}

// The most masked gates of a session, 2^30: so the wires after them have numbers below 2^31, as the law of `Next` says.
const MOST: usize = 1073741824;

// Question 8, of a record of a gate of this kind.
fn operands(kind: Kind, gate: GateRecord, next: usize) -> bool
    ensures { result ≡ operands_given (λ w. ltb w next) (gate_as gate kind) }
{
    let given = |w: u32| (w as usize) < next;
    match kind {
        Kind::Xor | Kind::And => given(gate.first) && given(gate.second),
        Kind::Inv | Kind::Eqw => given(gate.first),
        Kind::Eq(v) => v < 2,
    }
}

/// Questions 7 to 9 of a record that is to give the next wire, and the kind of its gate.
pub fn gate_good(gate: GateRecord, next: usize) -> Result<Kind, Refusal>
    ensures { stands_for (gate_as gate) result ≡ gate_good next gate }
{
    let kind = Kind::try_from(gate)?;
    if !operands(kind, gate, next) {
        return Err(Refusal::Operands);
    }
    if gate.result as usize != next {
        return Err(Refusal::Wire);
    }
    Ok(kind)
}

// Questions 24 and 7 to 9, with the number of input bits and the length of the list of records, and the kind of the
// record's gate.
fn questions(
    session: Session,
    gate: GateRecord,
    inputs: usize,
    places: usize,
    sizes: Sizes,
) -> Result<Kind, Refusal>
    ensures { stands_for (gate_as gate) result ≡ first_asked sizes inputs session.gates places gate }
{
    let most = sizes.source_limits().wires as usize;
    let gates = session.gates as usize;
    if gates >= places || inputs >= most || inputs + gates >= most {
        return Err(Refusal::Place);
    }
    gate_good(gate, inputs + gates)
}

// The twin of source wire w: an input's by the codes, and otherwise the one in its record.
fn twin(codes: &[u8], source: &[SourceRecord], result_wire: u32) -> Twin
    requires { length codes.now ≤ most_bits }
    ensures { result ≡ get_or (input_twins (length codes.now + 5) 0 codes.now ++ map twin_in source.now) result_wire
        no_twin }
{
    let wire = result_wire as usize;
    let inputs = codes.len();
    if wire < inputs {
        return match codes[wire] {
            0 => Twin {
                wire: (inputs + 5 + publics(&codes[..wire])) as u32,
                code: 1,
            },
            code => Twin {
                wire: result_wire,
                code,
            },
        };
    }
    entry(source, wire - inputs).twin()
}

/// The first question that gets a no, or the plan of adding a gate, with the length of the list of masked gates.
pub fn planned(
    session: Session,
    gate: GateRecord,
    codes: &[u8],
    source: &[SourceRecord],
    room: usize,
    sizes: Sizes,
) -> Result<Plan, Refusal>
    ensures { (masked : List Record) → length masked ≡ room → PlanIs sizes codes.now
        (lists_of session source.now masked) gate
        result }
{
    let kind = questions(session, gate, codes.len(), source.len(), sizes)?;
    let a = twin(codes, source, gate.first);
    let b = twin(codes, source, gate.second);
    let many = mask_rule::count(kind, a, b);
    let at = session.masked as usize;
    if room < at + many {
        return Err(Refusal::Room);
    }
    if MOST < at + many {
        return Err(Refusal::Room);
    }
    let c = Next {
        wire: codes.len() as u32 + 2 + session.masked,
    };
    Ok(Plan {
        keep: gate.source(mask_rule::twin(c, kind, a, b), session.masked),
        steps: Steps {
            kind,
            a,
            b,
            c,
            count: many,
        },
        session: Session {
            gates: session.gates + 1,
            masked: session.masked + many as u32,
        },
    })
}
