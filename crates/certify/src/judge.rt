//! Questions 10, 11 and 14 of a netlist that was read, and what the certifier says of it.
ghost use Rattle.std.specs.Prelude.{◌≡◌, Some, None, List, ℕ, ◌+◌, ◌*◌, ◌<◌, ◌≤◌, length, take};
ghost use Rattle.netlist.specs.Netlist.{Netlist};
ghost use Rattle.gates.specs.Gates.{WiredGates, HoldsGates};
ghost use Rattle.reader.specs.Tables.{HoldsNetlist};
ghost use Rattle.certify.specs.Pass.{Masked};
ghost use Rattle.certify.specs.Witness.{Witness};
ghost use Rattle.masking.specs.Leak.{EqualCounts};
ghost use Rattle.netlist.specs.Read.{WellFormed};
ghost use Rattle.certify.specs.Judge.{JudgedBy, JudgedLeft, Judged, JudgedAs};

use gates::Gates;
use leak_search::difference::Leak;
use netlist::Refusal;
use reader::netlist_tables::NetlistTables;

/// What the certifier says of a netlist: every wire is clean; or a leak, whose numbers and input bits are told; or the
/// lowest wire not known to be clean is told.
#[derive(Clone, Copy, Debug, PartialEq, Eq)]
pub enum Verdict {
    Clean,
    Leak,
    Unknown,
}

/// The verdict, or the first question that gets a no.
pub type Certified = Result<Verdict, Refusal>;

// A leak is told where both lists have room; `inputs` has the words of the input bits.
fn tell_leak(inputs: &[u64], found: Leak, leak: &mut [u64], ones: &mut [u64]) -> Certified
    requires { found.setting < 16 }
    ensures { (N : Netlist) (codes words : List ℕ) → inputs.now ≡ take (length codes) words
        → length codes ≤ length words
        → found.wire < N.wires → Witness N codes words found
        → (w : ℕ) → JudgedBy N codes leak.old leak.new ones.old ones.new (Some w) (Some found) words result }
{
    let place = 4 * found.setting;
    let many = crate::ones::count(inputs, place);
    if leak.len() < 4 || ones.len() < many {
        return Err(Refusal::Room);
    }
    leak[0] = found.wire as u64;
    leak[1] = many as u64;
    leak[2] = u64::from(found.base);
    leak[3] = u64::from(found.own);
    crate::ones::write(inputs, place, ones);
    Ok(Verdict::Leak)
}

// The lowest wire not known to be clean is told where the list has room.
fn tell_unknown(wire: usize, leak: &mut [u64]) -> Certified
    ensures { (N : Netlist) (codes ones words : List ℕ) → wire < N.wires → ((w : ℕ) → w < wire → EqualCounts N codes w)
        → JudgedBy N codes leak.old leak.new ones ones (Some wire) None words result }
{
    if leak.len() < 1 {
        return Err(Refusal::Room);
    }
    leak[0] = wire as u64;
    Ok(Verdict::Unknown)
}

// A witness is looked for, where a wire is not known to be clean.
fn witness(
    sure: usize,
    codes: &[u8],
    leak: &mut [u64],
    ones: &mut [u64],
    gates: Gates,
    words: &mut [u64],
    base: &mut [u64],
) -> Certified
    requires { WiredGates gates (length words.old) × (length codes.now + 2 ≤ length words.old)
        × (length base.old ≡ length words.old) × (sure < length words.old) }
    ensures { (n o : ℕ) (N : Netlist) → HoldsGates gates.entry (length words.old) n o N
        → Masked N codes.now → ((w : ℕ) → w < sure → EqualCounts N codes.now w)
        → JudgedLeft N codes.now sure leak.old leak.new ones.old ones.new result }
{
    match crate::search::search(gates, codes, words, base) {
        Some(found) => tell_leak(&words[..codes.len()], found, leak, ones),
        None => tell_unknown(sure, leak),
    }
}

// What the certifier says of these gates over `wires` wires.
fn decide(
    wires: usize,
    codes: &[u8],
    leak: &mut [u64],
    ones: &mut [u64],
    gates: Gates,
    marks: &mut [u8],
    words: &mut [u64],
    base: &mut [u64],
    records: &mut [u64],
) -> Certified
    requires { WiredGates gates wires × (length codes.now + 2 ≤ wires) × (wires ≤ length marks.old)
        × (wires ≤ length words.old) × (wires ≤ length base.old) × (15 * wires ≤ length records.old) }
    ensures { (n o : ℕ) (N : Netlist) → HoldsGates gates.entry wires n o N → Masked N codes.now
        → Judged N codes.now leak.old leak.new ones.old ones.new result }
{
    let entries = 15 * wires;
    let Some(sure) = crate::pass::certified(
        codes,
        gates,
        &mut records[..entries],
        &mut marks[..wires],
        &mut words[..wires],
    ) else {
        return Ok(Verdict::Clean);
    };
    witness(
        sure,
        codes,
        leak,
        ones,
        gates,
        &mut words[..wires],
        &mut base[..wires],
    )
}

/// Questions 10 and 11 and the verdict, of a netlist that was read.
pub fn judge(
    netlist: NetlistTables,
    codes: &[u8],
    leak: &mut [u64],
    ones: &mut [u64],
    marks: &mut [u8],
    words: &mut [u64],
    base: &mut [u64],
    records: &mut [u64],
) -> Certified
    requires { (netlist.header.wires ≤ length marks.old) × (netlist.header.wires ≤ length words.old)
        × (netlist.header.wires ≤ length base.old) × (15 * netlist.header.wires ≤ length records.old) }
    ensures { (N : Netlist) → HoldsNetlist netlist.entry N → WellFormed N → JudgedAs N codes.now leak.old leak.new
        ones.old ones.new result }
{
    questions::masks::ask_codes(netlist.header.input_bits, netlist.widths, codes)?;
    decide(
        netlist.header.wires as usize,
        codes,
        leak,
        ones,
        netlist.gates,
        marks,
        words,
        base,
        records,
    )
}
