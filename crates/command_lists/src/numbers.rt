//! Numbers in decimal digits.

ghost use Rattle.std.specs.Prelude.{◌≡◌};
ghost use Rattle.command_lists.specs.Numbers.{total_of};

/// The number that a word of one to six digits stands for, or none for another word.
pub fn number(word: &str) -> Option<usize> {
    if word.is_empty() || 6 < word.len() {
        return None;
    }
    let mut total = 0usize;
    for digit in word.bytes() {
        if !digit.is_ascii_digit() {
            return None;
        }
        total = total
            .saturating_mul(10)
            .saturating_add(usize::from(digit.wrapping_sub(b'0')));
    }
    Some(total)
}

/// How many bits values of these widths have together.
pub fn total(widths: &[u32]) -> usize
    ensures { result ≡ total_of widths.now }
{
    widths
        .iter()
        .fold(0usize, |bits, width| bits.saturating_add(*width as usize))
}
