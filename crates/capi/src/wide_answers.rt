//! Both answers of the check of netlists with many inputs: as those of Check with pairs, with how many input bits are
//! one in place of the setting, and those bits in a list of their own.
ghost use Rattle.std.specs.Prelude.{◌≡◌, take};
ghost use Rattle.std.proofs.lemmas.List.Edits.{sets};
ghost use Rattle.capi.specs.Wide.{room_ones, to_ones, ShowsWide};

use crate::pair_answers;
use check_pairs::judge::CheckedPairs;
use check_pairs::search::PairsFound;
use check_wide::judge::CheckedWide;
use check_wide::members::Ones;
use gates::entries::put;
use leak_search::difference::Leak;
use netlist::Refusal;

// Question 14 of the list for the ones, and the answer with their number in place of the setting.
fn ones_room(room: usize, answer: CheckedWide) -> CheckedPairs
    ensures { result ≡ room_ones room answer }
{
    let found = answer?;
    let Some(leak) = found.leak else {
        return Ok(PairsFound {
            leak: None,
            pair: found.pair,
        });
    };
    if room < leak.setting.count {
        return Err(Refusal::Room);
    }
    let counted = Leak {
        wire: leak.wire,
        setting: leak.setting.count as u64,
        base: leak.base,
        own: leak.own,
    };
    Ok(PairsFound {
        leak: Some(counted),
        pair: found.pair,
    })
}

// The input bits that are one, at the front of a list.
fn lay(list: &mut [u64], ones: Ones)
    ensures { list.new ≡ sets list.old 0 (take ones.count ones.items) }
{
    let told = &ones.items[..ones.count];
    for (i, item) in told.iter().enumerate() {
        put(list, i, *item as u64);
    }
}

// The input bits that are one in a leak's setting, if there is a leak to tell.
fn show_ones(list: &mut [u64], told: CheckedPairs, answer: CheckedWide)
    ensures { list.new ≡ sets list.old 0 (to_ones told answer) }
{
    if told.is_err() {
        return;
    }
    if let Ok(found) = answer {
        if let Some(leak) = found.leak {
            lay(list, leak.setting);
        }
    }
}

/// Both answers: their number, the numbers of a leak and of a bad pair, and the ones of a leak's setting at the front
/// of their lists.
pub fn tell(leak: &mut [u64], ones: &mut [u64], bad: &mut [u64], answer: CheckedWide) -> i64
    ensures { ShowsWide leak.old leak.new ones.old ones.new bad.old bad.new result answer }
{
    let asked = ones_room(ones.len(), answer);
    let told = pair_answers::room_for(leak.len(), bad.len(), asked);
    show_ones(ones, told, answer);
    pair_answers::tell(leak, bad, asked)
}
