//! The input bits that are one in a lane of the words of the input wires.
ghost use Rattle.std.specs.Prelude.{◌≡◌, ◌<◌, ◌≤◌, length};
ghost use Rattle.std.proofs.lemmas.List.Edits.{sets};
ghost use Rattle.certify.specs.Ones.{ones_at};

/// How many of the words have a one in a lane.
pub fn count(words: &[u64], place: u64) -> usize
    requires { place < 64 }
    ensures { result ≡ length (ones_at place words.now) }
{
    words
        .iter()
        .filter(|word| (**word >> place) & 1 == 1)
        .count()
}

/// Those words' numbers, over the front of `out`. By a place: after an adapter of `iter_mut` such as `zip` nothing is
/// known of the entries afterwards.
pub fn write(words: &[u64], place: u64, out: &mut [u64])
    requires { (place < 64) × (length (ones_at place words.now) ≤ length out.old) }
    ensures { out.new ≡ sets out.old 0 (ones_at place words.now) }
{
    let mut at = 0;
    for (i, word) in words.iter().enumerate() {
        if (*word >> place) & 1 == 1 {
            out[at] = i as u64;
            at += 1;
        }
    }
}
