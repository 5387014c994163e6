//! Words and wires in lists of bytes: eight bytes and four bytes each, the lowest first.
use crate::scan;

// The word at a place; bytes after the end are 0.
fn word(bytes: &[u8], at: usize) -> u64 {
    let mut word = [0u8; 8];
    for (i, b) in word.iter_mut().enumerate() {
        *b = scan::byte(bytes, at.wrapping_add(i));
    }
    u64::from_le_bytes(word)
}

// The words of a list of bytes.
pub(crate) fn take(list: &mut [u64], bytes: &[u8]) {
    for (i, entry) in list.iter_mut().enumerate() {
        *entry = word(bytes, i.wrapping_mul(8));
    }
}

// The bytes of all words of a table.
pub(crate) fn put(out: &mut [u8], words: &[u64]) {
    let mut at = 0;
    for word in words {
        at = writer::bytes(out, at, &word.to_le_bytes());
    }
}

// The bytes of all wires of a table.
pub(crate) fn put_wires(out: &mut [u8], wires: &[u32]) {
    let mut at = 0;
    for wire in wires {
        at = writer::bytes(out, at, &wire.to_le_bytes());
    }
}
