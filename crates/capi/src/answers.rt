//! What a program in C or Rust gets for an answer: one number, at least 0 for a result and minus the number of the
//! refusing question otherwise, and the numbers of a leak or of a bad pair at the front of a lent list.
ghost use Rattle.std.specs.Prelude.{◌≡◌, pos, neg_ℤ};
ghost use Rattle.std.proofs.lemmas.List.Edits.{sets};
ghost use Rattle.netlist.specs.Refusal.{number_of};
ghost use Rattle.leak_search.specs.declared.difference.Leak.{Leak};
ghost use Rattle.capi.specs.Number.{sizes_of, number as counted, leak_numbers, Countable, Shows};

use checker::judge::Checked;
use gates::entries::put;
use leak_search::difference::Leak;
use netlist::{Answer, Refusal, Sizes};

/// The number of a refusal.
pub fn minus(question: Refusal) -> i64
    ensures { result ≡ neg_ℤ (pos (number_of question)) }
{
    -(question.number() as i64)
}

/// The number of an answer.
pub fn number(answer: Answer) -> i64
    requires { Countable answer }
    ensures { result ≡ counted answer }
{
    match answer {
        Ok(n) => n as i64,
        Err(question) => minus(question),
    }
}

// How many numbers tell a leak.
pub(crate) const LEAK_NUMBERS: usize = 4;

/// The numbers of a leak: its wire, its setting, its base's count and its own. `certify_netlist` tells its leaks by
/// itself: this crate stands above it, and there the second number is how many input bits are one, and two lists are
/// asked for room before either is written.
pub fn show(list: &mut [u64], leak: Leak)
    ensures { list.new ≡ sets list.old 0 (leak_numbers leak) }
{
    put(list, 0, leak.wire as u64);
    put(list, 1, leak.setting);
    put(list, 2, leak.base as u64);
    put(list, 3, leak.own as u64);
}

/// Check's answer: its number, and the numbers of a leak at the front of a list; a list that cannot hold them is
/// refused by 14.
pub fn tell(list: &mut [u64], answer: Checked) -> i64
    ensures { Shows list.old list.new result answer }
{
    match answer {
        Ok(None) => 0,
        Ok(Some(leak)) => {
            if list.len() < LEAK_NUMBERS {
                return minus(Refusal::Room);
            }
            show(list, leak);
            1
        }
        Err(question) => minus(question),
    }
}

/// The sizes of a call: the old ones for 0, and otherwise those for whole ciphers.
pub fn sizes(whole: u8) -> Sizes
    ensures { result ≡ sizes_of whole }
{
    if whole == 0 {
        return Sizes::Standard;
    }
    Sizes::Whole
}
