//! The mask changes of the outputs.
ghost use Rattle.std.specs.Prelude.{◌≡◌, ◌<◌, ◌^◌, length};
ghost use Rattle.masking.specs.Changes.{output_change};
ghost use Rattle.fewest.specs.Codes.{end_changes};

// Whether an output bit costs a change.
fn output(code: u8, want: u8) -> u32
    ensures { result ≡ output_change code want }
{
    (want != 0 && want != code) as u32
}

/// The changes of the outputs, whose wires have these codes. Summed in a loop: with `filter` and `count` after `zip`
/// the proof didn't close.
pub fn outputs(out_codes: &[u8], wanted: &[u8]) -> u32
    requires { length wanted.now < 2 ^ 31 }
    ensures { result ≡ end_changes out_codes.now wanted.now }
{
    let mut sum = 0;
    for (e, want) in out_codes.iter().zip(wanted) {
        sum += output(*e, *want);
    }
    sum
}
