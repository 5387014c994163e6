//! Counts over the four mask settings, for sixteen input settings at a time: lanes 4 s to 4 s + 3 of
//! a word, its nibble s, belong to setting s of the block.
ghost use Rattle.std.specs.Prelude.{◌≡◌, ◌≢◌, ℕ, ◌<◌, eqb};
ghost use Rattle.leak_search.specs.Block.{nibble, ones};

/// The number of ones in each nibble, in its place: a pair of lanes less its upper lane is the number
/// of the pair's ones, and pairs of those are added.
pub fn counts(word: u64) -> u64
    ensures { (s : ℕ) → s < 16 → nibble result s ≡ ones word s }
{
    let pairs = word - ((word >> 1) & 0x5555_5555_5555_5555);
    (pairs & 0x3333_3333_3333_3333) + ((pairs >> 2) & 0x3333_3333_3333_3333)
}

/// Not zero in the nibbles of the settings whose counts are not those of the base.
pub fn differ(base: u64, word: u64) -> u64
    ensures { (s : ℕ) → s < 16 → eqb (nibble result s) 0 ≡ eqb (nibble base s) (ones word s) }
{
    base ^ counts(word)
}

/// The first nibble that is not zero.
pub fn first(differences: u64) -> u32
    requires { differences ≢ 0 }
    ensures { (result < 16) × (nibble differences result ≢ 0) × ((s : ℕ) → s < result → nibble differences s ≡ 0) }
{
    u64::trailing_zeros(differences) / 4
}

/// One nibble.
pub fn at(differences: u64, setting: u32) -> u8
    requires { setting < 16 }
    ensures { result ≡ nibble differences setting }
{
    ((differences >> (4 * setting)) & 15) as u8
}

/// The count of one setting.
pub fn count(word: u64, setting: u32) -> u8
    requires { setting < 16 }
    ensures { result ≡ ones word setting }
{
    at(counts(word), setting)
}

/// The lowest nibble in every place.
pub fn repeat(differences: u64) -> u64
    ensures { (s : ℕ) → s < 16 → nibble result s ≡ nibble differences 0 }
{
    (differences & 15) * 0x1111_1111_1111_1111
}
