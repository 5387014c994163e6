//! The fixed generator of numbers, which also mixes bits.
ghost use Rattle.std.specs.Prelude.{◌≡◌};
ghost use Rattle.certify_records.specs.Mix.{mixed};

/// The next number, whose bits are those of x mixed: xorshift.
pub fn mixed(word: u64) -> u64
    ensures { result ≡ mixed word }
{
    let y = word ^ (word << 13);
    let z = y ^ (y >> 7);
    z ^ (z << 17)
}
