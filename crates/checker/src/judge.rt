//! Questions 10 to 12 of a netlist that was read, and the verdict on it.
ghost use Rattle.std.specs.Prelude.{◌≡◌, ◌≤◌, length};
ghost use Rattle.netlist.specs.Netlist.{Netlist};
ghost use Rattle.masking.specs.Calls.{check_outcome};
ghost use Rattle.reader.specs.Tables.{HoldsNetlist};
ghost use Rattle.checker.specs.Verdict.{outcome_of};

use leak_search::difference::Leak;
use netlist::Refusal;
use questions::masks::ask_codes;
use reader::netlist_tables::NetlistTables;

/// The lowest leak, or none where the netlist is clean; or the first question that gets a no.
pub type Checked = Result<Option<Leak>, Refusal>;

/// Question 12: the most input bits besides the mask pair. Asked apart from `ask_codes`, which joining and certifying
/// call without it.
pub const MOST_BITS: usize = 12;

/// Questions 10 to 12 and the verdict, of a netlist that was read.
pub fn judge(netlist: NetlistTables, codes: &[u8], words: &mut [u64], base: &mut [u64]) -> Checked
    requires { (netlist.header.wires ≤ length words.old) × (netlist.header.wires ≤ length base.old) }
    ensures { (N : Netlist) → HoldsNetlist netlist.entry N → outcome_of result ≡ check_outcome codes.now N }
{
    let admitted = ask_codes(netlist.header.input_bits, netlist.widths, codes)?;
    if MOST_BITS < codes.len() {
        return Err(Refusal::Settings);
    }
    let wires = netlist.header.wires as usize;
    let found = leak_search::search::leaks(
        netlist.gates,
        admitted,
        &mut words[..wires],
        &mut base[..wires],
    );
    Ok(found)
}
