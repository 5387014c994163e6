//! What the programs make of a list file's bytes, and the lines that they print.
ghost use Rattle.std.specs.Prelude.{◌≡◌, [], ◌∷◌, ◌++◌, ◌+◌, ◌*◌, ◌≤◌, min, length, take};
ghost use Rattle.netlist.specs.Text.{lf};
ghost use Rattle.netlist.specs.Refusal.{number_of};
ghost use Rattle.program.specs.Programs.{list_bytes, entry as entry_of, list_file, print_list, print_refused};
ghost use Rattle.program.specs.Programs.{print_clean, print_leak};
ghost use Rattle.writer.specs.Wrote.{Wrote, WroteFew};
ghost use Rattle.program.specs.Front.{Front};

use netlist::Refusal;
use text::ends::without_end;
use writer::spaced;

/// The most bytes that a program reads of a file.
pub const FILE_LIMIT: usize = 60000;

/// The shortest tables that Mask takes, and those that Check, Run and Rewrite take. `Limits` has the same numbers; the
/// programs' tables are arrays, whose lengths must be constants.
pub const SMALL_TABLE: usize = 2048;

pub const LARGE_TABLE: usize = 18431;

// A list byte that is no digit counts as 9.
fn entry(byte: u8) -> u8
    ensures { result ≡ entry_of byte }
{
    match byte {
        b'0'..=b'9' => byte - b'0',
        _ => 9,
    }
}

/// How many entries of a buffer its first n are.
pub fn front<T>(buffer: &[T], count: usize) -> usize
    ensures least { (result ≡ min count (length buffer.now)) × Front buffer.now result (take count buffer.now) }
    ensures within { result ≤ length buffer.now }
    ensures front { result ≡ length (take result buffer.now) }
{
    count.min(buffer.len())
}

/// A buffer's first n entries, or all of a shorter one.
pub fn first<T>(buffer: &[T], count: usize) -> &[T]
    ensures { result.now ≡ take count buffer.now }
{
    &buffer[..front(buffer, count)]
}

// How many bytes of a list file count: a longer file is cut, and one LF or CR LF at the end comes off.
fn counted(file: &[u8]) -> usize
    ensures { Front file.now result (list_bytes file.now) }
{
    without_end(first(file, FILE_LIMIT)).len()
}

/// The list in a file, in place of its bytes: how many entries it has.
pub fn lay_list(file: &mut [u8]) -> usize
    ensures { Front file.new result (list_file file.old) }
{
    let n = counted(file);
    for b in &mut file[..n] {
        *b = entry(*b);
    }
    n
}

/// The list in a file, in place of its bytes.
pub fn list(file: &mut [u8]) -> &[u8]
    ensures { result.now ≡ list_file file.old }
{
    let n = lay_list(file);
    &file[..n]
}

/// A refusal's line.
pub fn refused(out: &mut [u8], question: Refusal) -> usize
    ensures { Wrote out.old 0 (print_refused (number_of question)) out.new result }
{
    let at = writer::bytes(out, 0, b"refused ");
    let end = writer::number(out, at, usize::from(question.number()));
    writer::put(out, end, b'\n')
}

/// Check's line for a clean netlist.
pub fn clean(out: &mut [u8]) -> usize
    ensures { Wrote out.old 0 print_clean out.new result }
{
    writer::bytes(out, 0, b"clean\n")
}

/// Check's line for a leak.
pub fn leak(out: &mut [u8], wire: usize, setting: usize, base: usize, count: usize) -> usize
    ensures { Wrote out.old 0 (print_leak wire setting base count) out.new result }
{
    let a = writer::bytes(out, 0, b"leak");
    let b = spaced(out, a, wire);
    let c = spaced(out, b, setting);
    let d = spaced(out, c, base);
    let e = spaced(out, d, count);
    writer::put(out, e, b'\n')
}

/// A list as digits, and LF.
pub fn digits(out: &mut [u8], list: &[u8]) -> usize
    ensures { WroteFew (3 * length list.now + 1) out.old 0 (print_list list.now ++ (lf ∷ []))
        out.new result }
{
    let mut at = 0;
    for entry in list {
        at = writer::number(out, at, usize::from(*entry));
    }
    writer::put(out, at, b'\n')
}
