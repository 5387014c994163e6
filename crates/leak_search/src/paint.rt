//! Paints: an input's code and, times four, its colour.
ghost use Rattle.std.specs.Prelude.{◌≡◌, ◌≤◌, length, take};
ghost use Rattle.leak_search.specs.Paint.{paint_each};

use questions::codes::Codes;

/// The input codes with a colour for each input, 1 for the first, at the front of an array.
pub fn each<'p>(codes: Codes, paints: &'p mut [u8; 12]) -> &'p [u8]
    requires { length codes.list.now ≤ 12 }
    ensures { result.now ≡ paint_each 0 codes.entry.list.now }
{
    for (i, code) in codes.list.iter().enumerate() {
        paints[i] = *code + 4 * (i as u8 + 1);
    }
    &paints[..codes.list.len()]
}
