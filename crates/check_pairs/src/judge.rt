//! Questions 10 to 12 and 21 of a netlist that was read, and the verdicts on its wires and on pairs of them.
ghost use Rattle.std.specs.Prelude.{◌≡◌, ◌<◌, ◌≤◌, length};
ghost use Rattle.netlist.specs.Netlist.{Netlist};
ghost use Rattle.reader.specs.Tables.{HoldsNetlist};
ghost use Rattle.check_pairs.specs.Call.{pairs_good, pairs_outcome};
ghost use Rattle.check_pairs.specs.Judge.{outcome_of};

use crate::search::PairsFound;
use netlist::Refusal;
use reader::netlist_tables::NetlistTables;

/// Both answers; or the first question that gets a no.
pub type CheckedPairs = Result<PairsFound, Refusal>;

/// Question 21: an even number of entries, each a wire below `wires`.
pub fn pairs_good(pairs: &[u32], wires: usize) -> bool
    ensures { result ≡ pairs_good wires pairs.now }
{
    pairs.len() % 2 == 0 && pairs.iter().all(|w| (*w as usize) < wires)
}

/// Questions 10 to 12 and 21 and both verdicts, of a netlist that was read.
pub fn judge(
    netlist: NetlistTables,
    codes: &[u8],
    pairs: &[u32],
    words: &mut [u64],
    base: &mut [u64],
    bases: &mut [u64],
) -> CheckedPairs
    requires { (netlist.header.wires ≤ length words.old) × (netlist.header.wires ≤ length base.old)
        × (netlist.header.wires ≤ length bases.old) }
    ensures { (N : Netlist) → HoldsNetlist netlist.entry N → outcome_of result ≡ pairs_outcome codes.now pairs.now N }
{
    let admitted = questions::masks::ask_codes(netlist.header.input_bits, netlist.widths, codes)?;
    if checker::judge::MOST_BITS < codes.len() {
        return Err(Refusal::Settings);
    }
    let wires = netlist.header.wires as usize;
    if !pairs_good(pairs, wires) {
        return Err(Refusal::Pairs);
    }
    let found = crate::search::search(
        netlist.gates,
        admitted,
        pairs,
        &mut words[..wires],
        &mut bases[..wires],
        &mut base[..wires],
    );
    Ok(found)
}
