//! Lent lists: questions 11 and 13, that one has an entry for each bit, each in its range.
#![tactic(auto)]

pub mod codes;
pub mod masks;

ghost use Rattle.std.specs.Prelude.{◌≡◌};
ghost use Rattle.netlist.specs.Lists.{every};
ghost use Rattle.masking.specs.Mask.{is_input_code, is_wanted};
ghost use Rattle.netlist.specs.Services.{list_good, is_bit};
ghost use Rattle.questions.specs.Range.{up_to};

// Whether each entry is at most `most`.
fn all_up_to(list: &[u8], most: u8) -> bool
    ensures { result ≡ every (up_to most) list.now }
{
    list.iter().all(|e| *e <= most)
}

// Whether there are n entries, each at most `most`. Four public names ask it, so that the range of each kind of list
// stands once and callers say which kind they mean.
fn good(list: &[u8], bits: usize, most: u8) -> bool
    ensures { result ≡ list_good (up_to most) bits list.now }
{
    list.len() == bits && all_up_to(list, most)
}

/// Run's input list: 0 or 1 for each of n bits.
pub fn valid_bits(list: &[u8], bits: usize) -> bool
    ensures { result ≡ list_good is_bit bits list.now }
{
    good(list, bits, 1)
}

/// The codes of n input bits: 0 to 3.
pub fn valid_codes(list: &[u8], bits: usize) -> bool
    ensures { result ≡ list_good is_input_code bits list.now }
{
    good(list, bits, 3)
}

/// The codes of n input bits, of which 4 is free: 0 to 4.
pub fn free_codes(list: &[u8], bits: usize) -> bool
    ensures { result ≡ list_good (up_to 4) bits list.now }
{
    good(list, bits, 4)
}

/// The wanted codes of n output bits: 0 to 3.
pub fn valid_wanted(list: &[u8], bits: usize) -> bool
    ensures { result ≡ list_good is_wanted bits list.now }
{
    good(list, bits, 3)
}
