//! Files that a program reads by name.
ghost use Rattle.std.specs.Prelude.{◌≡◌, ◌≤◌, length, take};
ghost use Rattle.std.specs.Io.KnownBytes.{Consumes};

use std::fs;
use std::io::Read;
use std::rt::Files;

// Fills the buffer from the reader, until it is full, the reader ends or a read fails, and answers how many of its
// bytes were read.
fn fill<R: Read>(file: &mut R, buffer: &mut [u8]) -> usize
    ensures within { result ≤ length buffer.new }
    ensures front { result ≡ length (take result buffer.new) }
    ensures bytes { Consumes (R.remaining file.old) (R.remaining file.new) (take result buffer.new) }
{
    let mut done = 0;
    while done < buffer.len() {
        match file.read(&mut buffer[done..]) {
            Ok(n) if n > 0 => done += n,
            _ => break,
        }
    }
    done
}

/// Fills the buffer from the file's start, until it is full or the file ends, and answers how many of its bytes are the
/// file's, as std's `read` does. A file that is missing or cannot be read counts as empty, and so does one whose name
/// is not UTF-8, which std cannot open.
pub fn read(files: &impl Files, name: &[u8], buffer: &mut [u8]) -> usize
    ensures within { result ≤ length buffer.new }
    ensures front { result ≡ length (take result buffer.new) }
{
    let Ok(path) = str::from_utf8(name) else {
        return 0;
    };
    let Ok(mut file) = fs::open(files, path) else {
        return 0;
    };
    fill(&mut file, buffer)
}
