//! The words of the input wires in one block: sixteen input settings by four mask settings. Lane j of
//! block b belongs to the number b * 64 + j, whose bits 0 and 1 are the mask bits; an input of colour
//! c + 1 takes bit c + 2.
ghost use Rattle.std.specs.Prelude.{◌≡◌, ℕ, ◌+◌, ◌*◌, ◌/◌, ◌%◌, ◌<◌, ◌≤◌, length, take};
ghost use Rattle.netlist.specs.Eval.{differs};
ghost use Rattle.masking.specs.Leak.{mask_of};
ghost use Rattle.evaluate.specs.Lane.{lane, lanes};
ghost use Rattle.leak_search.specs.Paint.{code_of, colour_of, shade};
ghost use Rattle.leak_search.specs.Base.{kept};
ghost use Rattle.leak_search.specs.Block.{inputs_at};

// Bits 0 to 5 of a block's numbers, which are the same in every block.
const PATTERNS: [u64; 6] = [
    0xaaaa_aaaa_aaaa_aaaa,
    0xcccc_cccc_cccc_cccc,
    0xf0f0_f0f0_f0f0_f0f0,
    0xff00_ff00_ff00_ff00,
    0xffff_0000_ffff_0000,
    0xffff_ffff_0000_0000,
];

// Bit i of a block's numbers.
fn pattern(index: usize, block: u64) -> u64
    requires { index < 66 }
    ensures { (j : ℕ) → j < 64 → lane j result ≡ lane index (block * 64 + j) }
{
    if index < 6 {
        PATTERNS[index]
    } else {
        evaluate::gate::spread(block, index - 6)
    }
}

/// The mask of a code in a block's numbers, which is the same in every block.
pub fn mask(code: u8) -> u64
    ensures { (b j : ℕ) → j < 64 → lane j result ≡ mask_of (lane 0 (b * 64 + j)) (lane 1 (b * 64 + j)) code }
{
    match code {
        1 => 0xaaaa_aaaa_aaaa_aaaa,
        2 => 0xcccc_cccc_cccc_cccc,
        3 => 0x6666_6666_6666_6666,
        _ => 0,
    }
}

// Bit i of the numbers, or zero where a base is asked for and the code is that of a secret bit. `secrets` and `block`
// stay two parameters, here and in the functions that hand them on: this one alone asks both.
fn chosen(index: usize, code: u8, secrets: bool, block: u64) -> u64
    requires { index < 64 }
    ensures { (j : ℕ) → j < 64 → lane j result ≡ kept secrets code (lane index ((block * 64 + j) / 4)) }
{
    if secrets || code == 0 {
        pattern(index + 2, block)
    } else {
        0
    }
}

// An input wire by its paint: its bit, masked.
fn input(paint: u8, secrets: bool, block: u64) -> u64
    ensures { (j : ℕ) → j < 64 → lane j result ≡ differs (kept secrets (code_of paint)
        (shade (colour_of paint) ((block * 64 + j) / 4)))
        (mask_of (lane 0 (block * 64 + j)) (lane 1 (block * 64 + j)) (code_of paint)) }
{
    let code = paint % 4;
    let colour = (paint / 4) as usize;
    if colour == 0 {
        return mask(code);
    }
    chosen(colour - 1, code, secrets, block) ^ mask(code)
}

/// All input wires of a block's settings, or of their bases: the masked bits, then the mask pair. By a loop, which lays
/// the list that is promised, where `each` of `evaluate` says of each entry what it is.
pub fn inputs(paints: &[u8], secrets: bool, block: u64, words: &mut [u64])
    requires { length paints.now + 2 ≤ length words.old }
    ensures { (j : ℕ) → j < 64 → lanes j (take (length paints.now + 2) words.new)
        ≡ inputs_at secrets paints.now (block * 64 + j) }
{
    for (i, paint) in paints.iter().enumerate() {
        words[i] = input(*paint, secrets, block);
    }
    let n = paints.len();
    words[n] = mask(1);
    words[n + 1] = mask(2);
}
