//! Sessions for programs in C and Rust: a session and a gate travel by value, and the caller lends the two lists.
ghost use Rattle.std.specs.Prelude.{◌≡◌};
ghost use Rattle.session.specs.Lists.{lists_of, said, off_asked};
ghost use Rattle.session.specs.SessionStepsPromise.{OpenIs, AddIs};
ghost use Rattle.session.specs.SessionTextPromise.{gate_shown, TextPromise, MaskedPromise};
ghost use Rattle.capi.specs.Number.{sizes_of, Told};

use crate::answers::{number, sizes};
use gates::records::{GateRecord, SourceRecord};
use session::given::Given;
use session::results::{masked, text};
use session::{Session, Step};

/// Opens a session.
#[unsafe(no_mangle)]
pub extern "C" fn fidrovelj_session_open(
    widths: &[u32],
    codes: &[u8],
    masked: &mut [GateRecord],
    whole: u8,
) -> Step
    ensures { OpenIs (sizes_of whole) widths.now codes.now masked.old masked.new result }
{
    session::steps::open(widths, codes, masked, sizes(whole))
}

/// Adds a gate at the end.
#[unsafe(no_mangle)]
pub extern "C" fn fidrovelj_session_add(
    session: Session,
    gate: GateRecord,
    codes: &[u8],
    source: &mut [SourceRecord],
    masked: &mut [GateRecord],
    whole: u8,
) -> Step
    ensures { AddIs (sizes_of whole) codes.now (lists_of session source.old masked.old) gate
        source.new masked.new result }
{
    session::steps::add(session, gate, codes, source, masked, sizes(whole))
}

/// Takes the last gate off.
#[unsafe(no_mangle)]
pub extern "C" fn fidrovelj_session_take_off(session: Session, source: &[SourceRecord]) -> Step
    ensures { result ≡ said session (off_asked session source.now) }
{
    session::steps::take_off(session, source)
}

/// Gate k, counted from 0: its record, which is blank where there is none.
#[unsafe(no_mangle)]
pub extern "C" fn fidrovelj_session_gate(
    session: Session,
    index: u32,
    source: &[SourceRecord],
) -> SourceRecord
    ensures { result ≡ gate_shown session index source.now }
{
    if session.gates <= index || source.len() <= index as usize {
        return SourceRecord::default();
    }
    source[index as usize]
}

/// The session's netlist as text: how many bytes the written form has at the front of `out`.
#[unsafe(no_mangle)]
pub extern "C" fn fidrovelj_session_text(
    session: Session,
    widths: &[u32],
    outputs: &[u32],
    source: &[SourceRecord],
    out: &mut [u8],
    operands: &mut [u64],
    results: &mut [u64],
    whole: u8,
) -> i64
    ensures { Told (TextPromise (sizes_of whole) widths.now outputs.now session source.now out.old
        out.new operands.old operands.new results.old results.new) result }
{
    let g = Given {
        session,
        widths,
        outputs,
        source,
    };
    number(text(g, out, operands, results, sizes(whole)))
}

/// What Mask gives for that netlist: how many bytes the masked text has at the front of `out`.
#[unsafe(no_mangle)]
pub extern "C" fn fidrovelj_session_masked(
    session: Session,
    widths: &[u32],
    outputs: &[u32],
    source: &[SourceRecord],
    codes: &[u8],
    wanted: &[u8],
    out: &mut [u8],
    out_codes: &mut [u8],
    operands: &mut [u64],
    results: &mut [u64],
    wires: &mut [u32],
    marks: &mut [u8],
    whole: u8,
) -> i64
    ensures { Told (MaskedPromise (sizes_of whole) widths.now outputs.now session source.now codes.now
        wanted.now out.old out.new out_codes.old out_codes.new operands.old
        operands.new results.old results.new wires.old wires.new marks.old
        marks.new) result }
{
    let g = Given {
        session,
        widths,
        outputs,
        source,
    };
    number(masked(
        g,
        codes,
        wanted,
        out,
        out_codes,
        operands,
        results,
        wires,
        marks,
        sizes(whole),
    ))
}
