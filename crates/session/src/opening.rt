//! Opening a session: questions 4, 5, 11 and 14.
ghost use Rattle.std.specs.Prelude.{◌≡◌, ◌≤◌, length};
ghost use Rattle.netlist.specs.declared.Sizes.TheVariants.{Whole};
ghost use Rattle.netlist.specs.Lists.{sum};
ghost use Rattle.netlist.specs.Netlist.{source_limits};
ghost use Rattle.session.specs.Asked.{widths_good};
ghost use Rattle.session.specs.Plan.{OpenedIs};

use crate::plan::publics;
use netlist::{Refusal, Sizes};

/// Question 4 of widths: one or more, each 1 or more.
pub fn positive(widths: &[u32]) -> bool
    ensures { result ≡ widths_good widths.now }
{
    !widths.is_empty() && !widths.contains(&0)
}

/// The sum of as many widths as Mask's limits admit, which 64 bits hold.
pub fn total(widths: &[u32]) -> u64
    requires { length widths.now ≤ (source_limits Whole).inputs }
    ensures { result ≡ sum widths.now }
{
    widths.iter().map(|w| *w as u64).sum()
}

/// The first question that gets a no, or how many masked gates the opening has.
#[tactic(auto, unfolding(crate::specs::Asked::opening))]
pub fn plan(widths: &[u32], codes: &[u8], room: usize, sizes: Sizes) -> Result<usize, Refusal>
    ensures { OpenedIs sizes widths.now codes.now room result }
{
    let l = sizes.source_limits();
    if !positive(widths) {
        return Err(Refusal::Header);
    }
    if l.inputs < widths.len() {
        return Err(Refusal::Limits);
    }
    let bits = total(widths);
    if (l.wires as u64) < bits {
        return Err(Refusal::Limits);
    }
    if !questions::valid_codes(codes, bits as usize) {
        return Err(Refusal::Inputs);
    }
    let many = 3 + publics(codes);
    if room < many {
        return Err(Refusal::Room);
    }
    Ok(many)
}
