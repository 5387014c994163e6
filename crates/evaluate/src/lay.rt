//! A list told entry by entry into a table with a place for each.
ghost use Rattle.std.specs.Prelude.{◌≡◌, ℕ, ◌<◌, map, length, get_or};
ghost use Rattle.netlist.specs.Eval.{bit};
ghost use Rattle.netlist.specs.Services.{is_one, bools};
ghost use Rattle.evaluate.specs.Lane.{lane, lanes};

/// What `f` makes of each entry, in its place of the table.
pub fn each<A: Copy, B: Copy, F: Fn(A) -> B>(src: &[A], dst: &mut [B], f: F)
    requires long { length dst.old ≡ length src.now }
    requires callable { F.IsAlwaysCallable f }
    ensures { (x : A) (y : B) (i : ℕ) → i < length src.now → F.post f (get_or src.now i x) (get_or dst.new i y) }
{
    for (i, a) in src.iter().enumerate() {
        dst[i] = f(*a);
    }
}

// A bit as a word that holds it in lane 0.
fn word(byte: u8) -> u64
    ensures { result ≡ bit (is_one byte) }
{
    u64::from(byte == 1)
}

// Lane 0 of a word, as a bit.
fn low_bit(word: u64) -> u8
    ensures { result ≡ bit (lane 0 word) }
{
    (word & 1) as u8
}

/// Bits as words that hold them in lane 0.
pub fn bits(src: &[u8], dst: &mut [u64])
    requires { length dst.old ≡ length src.now }
    ensures { dst.new ≡ map bit (bools src.now) }
{
    each(src, dst, word);
}

/// Lane 0 of words, as bits.
pub fn low_bits(src: &[u64], dst: &mut [u8])
    requires { length dst.old ≡ length src.now }
    ensures { dst.new ≡ map bit (lanes 0 src.now) }
{
    each(src, dst, low_bit);
}
