//! Questions 10 and 11 of a netlist whose last input value is the mask pair.
ghost use Rattle.std.specs.Prelude.{◌≡◌, IfOk};
ghost use Rattle.netlist.specs.Lists.{sum};
ghost use Rattle.masking.specs.Calls.{ends_in_masks};
ghost use Rattle.questions.specs.Asked.{asked_of, codes_asked};

use crate::codes::Codes;
use netlist::Refusal;

/// Question 10, of the widths of the input values: two or more, the last of width 2.
pub fn ends_in_masks(widths: &[u32]) -> bool
    ensures { result ≡ ends_in_masks widths.now }
{
    matches!(widths, [_, .., 2])
}

/// Questions 10 and 11, of the number of input bits, the widths of the input values and the input codes, which are then
/// admitted.
pub fn ask_codes<'a>(bits: u64, widths: &[u32], codes: &'a [u8]) -> Result<Codes<'a>, Refusal>
    requires { bits ≡ sum widths.now }
    ensures asked { asked_of result ≡ codes_asked widths.now codes.now }
    ensures given { IfOk result (λ admitted. admitted.list.now ≡ codes.now) }
{
    if !ends_in_masks(widths) {
        return Err(Refusal::Masks);
    }
    if !crate::valid_codes(codes, bits as usize - 2) {
        return Err(Refusal::Inputs);
    }
    Ok(Codes { list: codes })
}
