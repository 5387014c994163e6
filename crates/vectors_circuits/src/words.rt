//! Bytes by place, and the words of a text.

// The byte at a place, and 0 after the end.
pub(crate) fn byte(bytes: &[u8], index: usize) -> u8 {
    bytes.get(index).copied().unwrap_or(0)
}

// A byte to a place; nothing after the end.
pub(crate) fn put(bytes: &mut [u8], index: usize, byte: u8) {
    if let Some(to) = bytes.get_mut(index) {
        *to = byte;
    }
}

// The bytes from one place to another, and none where there is no such part.
pub(crate) fn part(bytes: &[u8], from: usize, to: usize) -> &[u8] {
    bytes.get(from..to).unwrap_or(b"")
}

// A reader of its own: the second evaluator, which it serves, shares nothing with the tool's readers, so that a slip of
// theirs shows. The first place, not before `from`, of a byte from `low` to `high`; the end where there is none.
pub(crate) fn find(bytes: &[u8], from: usize, low: u8, high: u8) -> usize {
    part(bytes, from, bytes.len())
        .iter()
        .position(|b| low <= *b && *b <= high)
        .map_or(bytes.len(), |i| from.wrapping_add(i))
}

// A place in a text of words. Spaces, line ends and the zeros of a buffer's rest part words.
#[derive(Clone, Copy)]
pub(crate) struct Cursor<'t> {
    text: &'t [u8],
    at: usize,
}

impl<'t> Cursor<'t> {
    // The first byte of a text.
    pub(crate) fn start(text: &'t [u8]) -> Self {
        Cursor { text, at: 0 }
    }

    // Where the word begins that stands here or after.
    fn begin(self) -> usize {
        find(self.text, self.at, 33, 255)
    }

    // Behind that word.
    pub(crate) fn following(self) -> Self {
        Cursor {
            text: self.text,
            at: find(self.text, self.begin(), 0, 32),
        }
    }

    // The word itself.
    pub(crate) fn word(self) -> &'t [u8] {
        part(self.text, self.begin(), self.following().at)
    }
}
