//! The words of the input wires in one round of chosen settings.
ghost use Rattle.std.specs.Prelude.{◌≡◌, ◌+◌, ◌≤◌, length, take};
ghost use Rattle.certify.specs.Round.{InputWord, Loaded};
ghost use Rattle.certify.specs.Search.{drawn, input_word, input_words};

use certify_records::mix::mixed;
use leak_search::load;

// The word of an input bit: a public bit is the same in all settings, a secret one is zero in setting 0. A public bit
// is bit 32 of the noise, and a secret one in setting s is bit 4 s + 2, each chosen as any other might be; the four
// lanes of setting 0 are cut off.
fn input(code: u8, noise: u64) -> u64
    ensures says { InputWord code result }
    ensures is { result ≡ input_word code noise }
{
    if code == 0 {
        return evaluate::gate::spread(noise, 32);
    }
    let bits = noise & 0xffff_ffff_ffff_fff0;
    (((bits >> 2) & 0x1111_1111_1111_1111) * 15) ^ load::mask(code)
}

/// The words of all input wires: the masked bits, then the mask pair. Returns the generator's last number.
pub fn inputs(codes: &[u8], seed: u64, words: &mut [u64]) -> u64
    requires { length codes.now + 2 ≤ length words.old }
    ensures says { Loaded codes.now words.new }
    ensures words { take (length codes.now + 2) words.new ≡ input_words codes.now seed }
    ensures noise { result ≡ drawn (length codes.now) seed }
{
    let mut noise = seed;
    for (i, code) in codes.iter().enumerate() {
        noise = mixed(noise);
        words[i] = input(*code, noise);
    }
    let n = codes.len();
    words[n] = load::mask(1);
    words[n + 1] = load::mask(2);
    noise
}
