//! Questions 1 and 4 to 6 of a session that is to be shown. They are asked of widths and of numbers, and not of a
//! `Given`: the records are not looked at.
ghost use Rattle.std.specs.Prelude.{◌≡◌, ◌≤◌};
ghost use Rattle.netlist.specs.declared.Sizes.TheVariants.{Whole};
ghost use Rattle.netlist.specs.Netlist.{source_limits};
ghost use Rattle.netlist.specs.Header.{within_limits};
ghost use Rattle.session.specs.Plan.{NoIs};
ghost use Rattle.session.specs.Shown.{head_of, head_asked};
ghost use Rattle.session.specs.Parts.{AskedIs};

use crate::opening::{positive, total};
use crate::shown::Shown;
use netlist::{Limits, Refusal, Sizes};
use reader::header::Header;

// Question 5.
fn within(limits: Limits, widths: &[u32], outputs: &[u32], gates: u32) -> bool
    requires { (limits.inputs ≤ (source_limits Whole).inputs) × (limits.outputs ≤ (source_limits Whole).outputs) }
    ensures { result ≡ within_limits limits (head_of widths.now outputs.now gates) }
{
    if limits.inputs < widths.len() {
        return false;
    }
    if limits.outputs < outputs.len() {
        return false;
    }
    let most = limits.wires as u64;
    let n = total(widths);
    if most < n {
        return false;
    }
    if most - n < gates as u64 {
        return false;
    }
    total(outputs) <= n + gates as u64
}

// The first no of questions 1 and 4 to 6.
fn question(
    widths: &[u32],
    outputs: &[u32],
    gates: u32,
    places: usize,
    lengths: &[usize],
    sizes: Sizes,
) -> Result<(), Refusal>
    ensures { NoIs (head_asked (source_limits sizes) lengths.now widths.now outputs.now gates places) result }
{
    let l = sizes.source_limits();
    if !l.admit(lengths) {
        return Err(Refusal::Tables);
    }
    if !positive(widths) {
        return Err(Refusal::Header);
    }
    if !positive(outputs) {
        return Err(Refusal::Header);
    }
    if !within(l, widths, outputs, gates) {
        return Err(Refusal::Limits);
    }
    if places < gates as usize {
        return Err(Refusal::Count);
    }
    Ok(())
}

/// Questions 1 and 4 to 6 of a session with so many gates, whose list has so many places, and of tables of these
/// lengths.
pub fn ask<'a>(
    widths: &'a [u32],
    outputs: &'a [u32],
    gates: u32,
    places: usize,
    lengths: &[usize],
    sizes: Sizes,
) -> Result<Shown<'a>, Refusal>
    ensures { AskedIs sizes lengths.now widths.now outputs.now gates places result }
{
    question(widths, outputs, gates, places, lengths, sizes)?;
    let bits = total(widths);
    Ok(Shown {
        header: Header {
            gates,
            wires: bits as u32 + gates,
            input_values: widths.len(),
            input_bits: bits,
            output_values: outputs.len(),
            output_bits: total(outputs),
        },
        widths,
        outputs,
    })
}
