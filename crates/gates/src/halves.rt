//! Two numbers of 32 bits in one of 64, as the entries of lent tables hold them.
ghost use Rattle.std.specs.Prelude.{◌≡◌, ◌+◌, ◌*◌, ◌/◌, ◌%◌};
ghost use Rattle.netlist.specs.Table.{half};

// 2^32: the upper half of a word counts these.
const HALF: u64 = 4294967296;

/// The word of two numbers, the second in the upper half. Inlined always, as `unpack` is: the loops over gates and
/// records call them.
#[inline(always)]
pub fn pack(low: u32, high: u32) -> u64
    ensures { result ≡ low + high * half }
{
    low as u64 + high as u64 * HALF
}

/// The two numbers of a word, that of the lower half first.
#[inline(always)]
pub fn unpack(word: u64) -> (u32, u32)
    ensures { result ≡ (word % half, word / half) }
{
    ((word % HALF) as u32, (word / HALF) as u32)
}
