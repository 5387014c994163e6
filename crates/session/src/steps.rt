//! The steps of a session over its lent lists: opening, adding a gate at the end, taking the last one off.
ghost use Rattle.std.specs.Prelude.{◌≡◌, ◌≤◌, [], map, length};
ghost use Rattle.std.proofs.lemmas.List.Edits.{sets};
ghost use Rattle.gates.specs.Records.{record_of};
ghost use Rattle.session.specs.Afresh.{open_gates};
ghost use Rattle.session.specs.Lists.{lists_of, session_of, said, off_asked, open_outcome, add_outcome};
ghost use Rattle.session.specs.Plan.{steps_in, most_bits, Places};
ghost use Rattle.session.specs.SessionStepsPromise.{StepsTo, OpenIs, AddIs};

use crate::adding::{Steps, planned};
use crate::opening::plan;
use crate::taking::off;
use crate::{Session, Step};
use gates::records::{GateRecord, SourceRecord};
use mask_rule::codes::Masks;
use netlist::{Gate, Refusal, Sizes};

// A source gate's masked gates, from a place of the list on, with n input bits.
fn write(list: &mut [GateRecord], at: usize, mask_pair: u32, steps: Steps)
    requires { Places mask_pair steps at (length list.old) }
    ensures { list.new ≡ sets list.old at (map record_of (steps_in mask_pair steps)) }
{
    let masks = Masks { first: mask_pair };
    for k in 0..steps.count {
        list[at + k] = mask_rule::gate(masks, steps.c, steps.kind, steps.a, steps.b, k);
    }
}

// An opening's masked gates, `count` of them, at the front of the list. `next` is counted: a loop over `filter` gives no
// place in the list that it writes to but by a second count. The codes after the last public bit are not looked at.
fn write_opening(list: &mut [GateRecord], codes: &[u8], count: usize)
    requires { (length codes.now ≤ most_bits) × (count ≡ length (open_gates codes.now)) × (count ≤ length list.old) }
    ensures { list.new ≡ sets list.old 0 (map record_of (open_gates codes.now)) }
{
    let n = codes.len() as u32;
    list[0] = GateRecord::from(Gate::Xor(n, n + 1, n + 2));
    list[1] = GateRecord::from(Gate::And(n, n + 1, n + 3));
    list[2] = GateRecord::from(Gate::Xor(n + 2, n + 3, n + 4));
    let mut next = 3;
    for (w, e) in codes.iter().enumerate() {
        if next == count {
            return;
        }
        if *e == 0 {
            list[next] = GateRecord::from(Gate::Xor(w as u32, n, n + 2 + next as u32));
            next += 1;
        }
    }
}

// Opens a session: questions 4, 5, 11 and 14, and then the first masked gates.
fn try_open(
    widths: &[u32],
    codes: &[u8],
    masked: &mut [GateRecord],
    sizes: Sizes,
) -> Result<Session, Refusal>
    ensures { StepsTo (lists_of (session_of 0 0) [] masked.old) (open_outcome sizes widths.now codes.now [] masked.old)
        [] masked.new result }
{
    let count = plan(widths, codes, masked.len(), sizes)?;
    write_opening(masked, codes, count);
    Ok(Session {
        gates: 0,
        masked: count as u32,
    })
}

/// Opens a session: the opening's masked gates go to the front of `masked`.
pub fn open(widths: &[u32], codes: &[u8], masked: &mut [GateRecord], sizes: Sizes) -> Step
    ensures { OpenIs sizes widths.now codes.now masked.old masked.new result }
{
    Step::of(Session::default(), try_open(widths, codes, masked, sizes))
}

fn try_add(
    session: Session,
    gate: GateRecord,
    codes: &[u8],
    source: &mut [SourceRecord],
    masked: &mut [GateRecord],
    sizes: Sizes,
) -> Result<Session, Refusal>
    ensures { StepsTo (lists_of session source.old masked.old)
        (add_outcome sizes codes.now (lists_of session source.old masked.old)
        gate) source.new masked.new
        result }
{
    let p = planned(session, gate, codes, source, masked.len(), sizes)?;
    source[session.gates as usize] = p.keep;
    write(masked, session.masked as usize, codes.len() as u32, p.steps);
    Ok(p.session)
}

/// Adds a gate at the end.
pub fn add(
    session: Session,
    gate: GateRecord,
    codes: &[u8],
    source: &mut [SourceRecord],
    masked: &mut [GateRecord],
    sizes: Sizes,
) -> Step
    ensures { AddIs sizes codes.now (lists_of session source.old masked.old) gate source.new
        masked.new result }
{
    Step::of(
        session,
        try_add(session, gate, codes, source, masked, sizes),
    )
}

/// Takes the last gate off. Nothing is written: what stood after the gates left is left there.
pub fn take_off(session: Session, source: &[SourceRecord]) -> Step
    ensures { result ≡ said session (off_asked session source.now) }
{
    Step::of(session, off(session, source))
}
