//! Questions 10, 11, 21 and 12 of a netlist with many inputs that was read, and the verdicts on its wires and on pairs
//! of them.
ghost use Rattle.std.specs.Prelude.{◌≡◌, true, false, ℕ, ◌+◌, ◌<◌, ◌≤◌, length, get_or};
ghost use Rattle.netlist.specs.Netlist.{Netlist};
ghost use Rattle.netlist.specs.Outcome.{done, ask};
ghost use Rattle.netlist.specs.Read.{WellFormed};
ghost use Rattle.gates.specs.Gates.{WiredGates, HoldsGates};
ghost use Rattle.reader.specs.Tables.{HoldsNetlist};
ghost use Rattle.check_wide.specs.Sets.{members_end};
ghost use Rattle.check_wide.specs.Wide.{few_reach, wide_answers, wide_outcome};
ghost use Rattle.check_wide.specs.WireSets.{sets_of};
ghost use Rattle.check_wide.specs.Items.{PairsFew};
ghost use Rattle.check_wide.specs.Verdict.{outcome_of};

use crate::items::Items;
use crate::job::Job;
use crate::search::WideFound;
use crate::wire_sets::WireSets;
use crate::{item, reach, search};
use gates::Gates;
use netlist::Refusal;
use questions::codes::Codes;
use reader::netlist_tables::NetlistTables;

/// Both answers; or the first question that gets a no.
pub type CheckedWide = Result<WideFound, Refusal>;

// Question 12 of the pairs: at most twelve inputs reach each.
fn pairs_few(pairs: &[u32], sets: WireSets) -> bool
    requires { (i : ℕ) → i < length pairs.now → get_or pairs.now i 0 < length sets.set0.now }
    ensures { (result ≡ true → PairsFew (sets_of sets.entry) pairs.now)
        × (result ≡ false → PairsFew (sets_of sets.entry) pairs.now → ⊥) }
{
    (0..pairs.len() / 2).all(|j| item::pair(pairs, sets, j).is_some())
}

// Question 12 and the verdicts. The tables of words and sets have one entry for each wire, the paints one for each
// code.
fn within(
    gates: Gates,
    codes: Codes,
    pairs: &[u32],
    marks: &mut [u8],
    words: &mut [u64],
    base: &mut [u64],
    bases: &mut [u64],
    set0: &mut [u64],
    set1: &mut [u64],
    set2: &mut [u64],
    set3: &mut [u64],
    paints: &mut [u8],
) -> CheckedWide
    requires wired { WiredGates gates (length words.old)
        × ((i : ℕ) → i < length pairs.now → get_or pairs.now i 0 < length words.old)
        × (length codes.list.now ≤ members_end) }
    requires lengths { (length paints.old ≡ length codes.list.now) × (length codes.list.now + 2 ≤ length words.old)
        × (length bases.old ≡ length words.old) × (length base.old ≡ length words.old)
        × (length set0.old ≡ length words.old) × (length set1.old ≡ length words.old)
        × (length set2.old ≡ length words.old)
        × (length set3.old ≡ length words.old) }
    ensures { (o : ℕ) (N : Netlist) → HoldsGates gates.entry (length words.old) (length codes.entry.list.now + 2) o N
        → WellFormed N
        → outcome_of result ≡ ask 12 (few_reach N (length codes.entry.list.now) pairs.now)
        (done (wide_answers N codes.entry.list.now pairs.now)) }
{
    if !reach::reach(gates, codes.list.len(), set0, set1, set2, set3) {
        return Err(Refusal::Settings);
    }
    let sets = WireSets {
        set0,
        set1,
        set2,
        set3,
    };
    if !pairs_few(pairs, sets) {
        return Err(Refusal::Settings);
    }
    let job = Job {
        gates,
        codes,
        items: Items { sets, pairs },
    };
    Ok(search::search(job, paints, marks, words, base, bases))
}

/// Questions 10, 11, 21 and 12 and both verdicts, of a netlist that was read.
pub fn judge(
    netlist: NetlistTables,
    codes: &[u8],
    pairs: &[u32],
    marks: &mut [u8],
    words: &mut [u64],
    base: &mut [u64],
    bases: &mut [u64],
    set0: &mut [u64],
    set1: &mut [u64],
    set2: &mut [u64],
    set3: &mut [u64],
    paints: &mut [u8],
) -> CheckedWide
    requires { (netlist.header.wires ≤ length words.old) × (netlist.header.wires ≤ length base.old)
        × (netlist.header.wires ≤ length bases.old) × (netlist.header.wires ≤ length set0.old)
        × (netlist.header.wires ≤ length set1.old) × (netlist.header.wires ≤ length set2.old)
        × (netlist.header.wires ≤ length set3.old) × (netlist.header.wires ≤ length paints.old)
        × (netlist.header.wires ≤ members_end) }
    ensures { (N : Netlist) → HoldsNetlist netlist.entry N → WellFormed N → outcome_of result
        ≡ wide_outcome codes.now pairs.now N }
{
    let admitted = questions::masks::ask_codes(netlist.header.input_bits, netlist.widths, codes)?;
    let wires = netlist.header.wires as usize;
    if !check_pairs::judge::pairs_good(pairs, wires) {
        return Err(Refusal::Pairs);
    }
    let n = codes.len();
    within(
        netlist.gates,
        admitted,
        pairs,
        marks,
        &mut words[..wires],
        &mut base[..wires],
        &mut bases[..wires],
        &mut set0[..wires],
        &mut set1[..wires],
        &mut set2[..wires],
        &mut set3[..wires],
        &mut paints[..n],
    )
}
