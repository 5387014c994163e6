//! Both answers of Check with pairs: their number, and the numbers of a leak and of a bad pair in their lists.
ghost use Rattle.std.specs.Prelude.{◌≡◌};
ghost use Rattle.std.proofs.lemmas.List.Edits.{sets};
ghost use Rattle.capi.specs.Pairs.{both as both_of, told_leak, bad_numbers, room_for, ShowsBoth};

use crate::answers::{LEAK_NUMBERS, minus, show};
use check_pairs::judge::CheckedPairs;
use check_pairs::search::PairsFound;
use gates::entries::put;
use leak_search::difference::Leak;
use netlist::Refusal;

/// Question 14 of the lists for the numbers of both answers.
pub fn room_for(leak: usize, bad: usize, answer: CheckedPairs) -> CheckedPairs
    ensures { result ≡ room_for leak bad answer }
{
    let found = answer?;
    if found.leak.is_some() && leak < LEAK_NUMBERS || found.pair.is_some() && bad < 1 {
        return Err(Refusal::Room);
    }
    Ok(found)
}

// The number of both answers: 1 for a leak, and 2 more for a bad pair.
fn both(found: PairsFound) -> i64
    ensures { result ≡ both_of found }
{
    match (found.leak, found.pair) {
        (None, None) => 0,
        (Some(_), None) => 1,
        (None, Some(_)) => 2,
        (Some(_), Some(_)) => 3,
    }
}

// The numbers of a leak at the front of a list, if there is one.
fn show_leak(list: &mut [u64], leak: Option<Leak>)
    ensures { list.new ≡ sets list.old 0 (told_leak leak) }
{
    if let Some(leak) = leak {
        show(list, leak);
    }
}

// The number of a bad pair at the front of a list, if there is one.
fn show_bad(list: &mut [u64], pair: Option<usize>)
    ensures { list.new ≡ sets list.old 0 (bad_numbers pair) }
{
    if let Some(pair) = pair {
        put(list, 0, pair as u64);
    }
}

/// Both answers: their number, and the numbers of a leak and of a bad pair at the front of their lists.
pub fn tell(leak: &mut [u64], bad: &mut [u64], answer: CheckedPairs) -> i64
    ensures { ShowsBoth leak.old leak.new bad.old bad.new result answer }
{
    match room_for(leak.len(), bad.len(), answer) {
        Ok(found) => {
            show_leak(leak, found.leak);
            show_bad(bad, found.pair);
            both(found)
        }
        Err(question) => minus(question),
    }
}
