//! What a step of a session asks and writes, over numbers, codes and records.
ghost use Rattle.std.specs.Prelude.{◌≡◌, count_by};
ghost use Rattle.masking.specs.Mask.{is_public};

// How many bits are public. Counted in a loop: `filter` and `count` are compiled to a branch for each bit, the loop to
// several bits at a time.
pub(crate) fn publics(codes: &[u8]) -> usize
    ensures { result ≡ count_by is_public codes.now }
{
    let mut count = 0;
    for e in codes {
        if *e == 0 {
            count += 1;
        }
    }
    count
}
