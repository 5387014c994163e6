//! Counts of settings from tables of a wire's bits.
ghost use Rattle.std.specs.Prelude.{◌≡◌, ℕ, ◌+◌, ◌*◌, ◌^◌, ◌<◌, ◌≤◌, [], ◌∷◌, length};
ghost use Rattle.netlist.specs.Services.{delivered, Answers};
ghost use Rattle.std.proofs.lemmas.List.Edits.{sets};
ghost use Rattle.explain.specs.Table.{table_count};
ghost use Rattle.explain.specs.Totals.{totals_of};
ghost use Rattle.explain.specs.Counts.{settings_with, weight, lighter, lightest, counts_of};

use gates::entries::put;
use netlist::{Answer, Refusal};

// The count of a setting.
fn count(table: &[u8], setting: usize) -> u64
    requires { 4 * setting + 3 < length table.now }
    ensures { result ≡ table_count table.now setting }
{
    u64::from(table[4 * setting])
        + u64::from(table[4 * setting + 1])
        + u64::from(table[4 * setting + 2])
        + u64::from(table[4 * setting + 3])
}

// How many settings have a count.
fn settings_with(table: &[u8], wanted: u64, settings: usize) -> u64
    requires { 4 * settings ≤ length table.now }
    ensures { result ≡ settings_with (table_count table.now) wanted settings }
{
    let mut total = 0;
    for s in 0..settings {
        total += u64::from(count(table, s) == wanted);
    }
    total
}

// How many of the first bits of a number are one.
fn weight(bits: usize, number: usize) -> usize
    ensures { result ≡ weight bits number }
{
    let mut total = 0;
    let mut rest = number;
    for _ in 0..bits {
        total += rest % 2;
        rest /= 2;
    }
    total
}

// Whether a setting has fewer ones than the one so far, if there is one.
fn lighter(bits: usize, setting: usize, best: Option<usize>) -> bool
    ensures { result ≡ lighter bits setting best }
{
    match best {
        None => true,
        Some(b) => weight(bits, setting) < weight(bits, b),
    }
}

// Of the settings whose count is not their base's, the one with the fewest ones.
fn lightest(base: &[u8], own: &[u8], bits: usize, settings: usize) -> Option<usize>
    requires { (4 * settings ≤ length base.now) × (4 * settings ≤ length own.now) }
    ensures { result ≡ lightest (table_count base.now) (table_count own.now) bits settings }
{
    let mut best = None;
    for s in 0..settings {
        if count(base, s) != count(own, s) && lighter(bits, s, best) {
            best = Some(s);
        }
    }
    best
}

/// How many settings have each count.
#[derive(Clone, Copy)]
pub struct Totals {
    pub zero: u64,
    pub one: u64,
    pub two: u64,
    pub three: u64,
    pub four: u64,
}

// The totals at the front of a list.
fn show(totals: Totals, out: &mut [u64])
    ensures { out.new ≡ sets out.old 0 (totals.zero ∷ totals.one ∷ totals.two ∷ totals.three ∷ totals.four ∷ []) }
{
    put(out, 0, totals.zero);
    put(out, 1, totals.one);
    put(out, 2, totals.two);
    put(out, 3, totals.three);
    put(out, 4, totals.four);
}

// The totals at the front of a list, then a witness, its base's count and its own.
fn show_witness(totals: Totals, setting: u64, base: u64, own: u64, out: &mut [u64])
    ensures { out.new ≡ sets out.old 0 (totals.zero ∷ totals.one ∷ totals.two ∷ totals.three ∷ totals.four
        ∷ setting ∷ base ∷ own ∷ []) }
{
    put(out, 0, totals.zero);
    put(out, 1, totals.one);
    put(out, 2, totals.two);
    put(out, 3, totals.three);
    put(out, 4, totals.four);
    put(out, 5, setting);
    put(out, 6, base);
    put(out, 7, own);
}

// How many settings have each count, from a table of their bits.
fn total_each(table: &[u8], settings: usize) -> Totals
    requires { 4 * settings ≤ length table.now }
    ensures { result ≡ totals_of (table_count table.now) settings }
{
    Totals {
        zero: settings_with(table, 0, settings),
        one: settings_with(table, 1, settings),
        two: settings_with(table, 2, settings),
        three: settings_with(table, 3, settings),
        four: settings_with(table, 4, settings),
    }
}

/// From tables of a wire's bits, in the bases of settings of so many bits and in the settings: how many settings have
/// each count, and the witness where there is one.
pub fn tell(base: &[u8], own: &[u8], bits: usize, out: &mut [u64]) -> Answer
    requires { (bits ≤ 12) × (4 * 2 ^ bits ≤ length base.now) × (4 * 2 ^ bits ≤ length own.now) }
    ensures { Answers (delivered (length out.old)
        (counts_of (table_count base.now) (table_count own.now) bits (2 ^ bits))) out.old out.new result }
{
    let settings = crate::truth::power(bits);
    let totals = total_each(own, settings);
    match lightest(base, own, bits, settings) {
        None => {
            if out.len() < 5 {
                return Err(Refusal::Room);
            }
            show(totals, out);
            Ok(5)
        }
        Some(s) => {
            if out.len() < 8 {
                return Err(Refusal::Room);
            }
            show_witness(totals, s as u64, count(base, s), count(own, s), out);
            Ok(8)
        }
    }
}
