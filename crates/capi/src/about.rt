//! The version, and the words of a refusal.
ghost use Rattle.std.specs.Prelude.{◌≡◌};
ghost use Rattle.capi.specs.About.{version as version_number, Named, Told, RefusalIs};

use netlist::Refusal;

/// The version: its first number times 10,000, its second times 100, and its third.
#[unsafe(no_mangle)]
pub extern "C" fn fidrovelj_version() -> u32
    ensures { result ≡ version_number }
{
    version::MAJOR * 10000 + version::MINOR * 100 + version::PATCH
}

// The refusal of a number, if there is one.
fn named(number: u8) -> Option<Refusal>
    ensures { Named number result }
{
    match number {
        1 => Some(Refusal::Tables),
        2 => Some(Refusal::Length),
        3 => Some(Refusal::Bytes),
        4 => Some(Refusal::Header),
        5 => Some(Refusal::Limits),
        6 => Some(Refusal::Count),
        7 => Some(Refusal::Line),
        8 => Some(Refusal::Operands),
        9 => Some(Refusal::Wire),
        10 => Some(Refusal::Masks),
        11 => Some(Refusal::Inputs),
        12 => Some(Refusal::Settings),
        13 => Some(Refusal::Wanted),
        14 => Some(Refusal::Room),
        15 => Some(Refusal::OldForm),
        16 => Some(Refusal::Grammar),
        17 => Some(Refusal::Names),
        18 => Some(Refusal::Depth),
        19 => Some(Refusal::Aiger),
        20 => Some(Refusal::Latches),
        21 => Some(Refusal::Pairs),
        22 => Some(Refusal::Budget),
        23 => Some(Refusal::Gate),
        24 => Some(Refusal::Place),
        25 => Some(Refusal::Seam),
        26 => Some(Refusal::State),
        27 => Some(Refusal::Judged),
        _ => None,
    }
}

// Words at the front of a buffer that can hold them, which otherwise stays as it was: how many bytes they have.
fn lay(words: &[u8], buffer: &mut [u8]) -> i64
    ensures { Told words.now buffer.old buffer.new result }
{
    let count = words.len();
    if count <= buffer.len() {
        gates::entries::copy(words, &mut buffer[..count]);
        return count as i64;
    }
    count as i64
}

/// The words of a refusal, by the number of its question: how many bytes they have, 0 where there is no such question.
/// They go to the buffer's front if it can hold them; otherwise it stays as it was.
#[unsafe(no_mangle)]
pub extern "C" fn fidrovelj_refusal(number: u8, buffer: &mut [u8]) -> i64
    ensures { RefusalIs number buffer.old buffer.new result }
{
    match named(number) {
        Some(refusal) => lay(refusal.words().as_bytes(), buffer),
        None => lay(b"", buffer),
    }
}
