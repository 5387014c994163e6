//! The words and signs of a text of equations, one after another.
ghost use Rattle.std.specs.Prelude.{◌≡◌, ◌≤◌, ◌<◌, ◌+◌, length, drop, get_or};
ghost use Rattle.text.specs.Cursors.{Scanned};
ghost use Rattle.verilog.specs.Tokens.{is_letter, in_word, is_white};
ghost use Rattle.from_verilog.specs.Kind.{number_of};
ghost use Rattle.from_verilog.specs.Next.{sign_code, word_code, White, TokenAt};

use text::bytes::same;
use text::cursor::Cursor;

/// What a token is: a reserved word, a sign, a name, the end of the text, or none of these.
#[derive(Clone, Copy, PartialEq, Eq)]
pub enum Kind {
    End,
    Module,
    Input,
    Output,
    Wire,
    Assign,
    EndModule,
    Open,
    Close,
    Semicolon,
    Comma,
    Equals,
    Not,
    And,
    Xor,
    Name,
    Other,
}

/// A token: what it is, its first byte, and the one after its last.
#[derive(Clone, Copy)]
pub struct Token {
    pub kind: Kind,
    pub from: usize,
    pub to: usize,
}

// A name has no more bytes.
const LONGEST: usize = 16;

fn is_letter(byte: u8) -> bool
    ensures { result ≡ is_letter byte }
{
    byte.is_ascii_alphabetic()
}

// Whether a byte is part of a word.
fn in_word(byte: u8) -> bool
    ensures { result ≡ in_word byte }
{
    byte.is_ascii_alphanumeric()
}

// Whether the byte at a place is white: space, LF, or CR directly before LF.
fn is_white(text: &[u8], at: usize) -> bool
    requires { at < length text.now }
    ensures { result ≡ is_white (get_or text.now at 0) (drop (at + 1) text.now) }
{
    match text[at] {
        b' ' | b'\n' => true,
        b'\r' => text.get(at + 1) == Some(&b'\n'),
        _ => false,
    }
}

// Past what stands before the next token.
fn skip_white(text: &[u8], at: usize) -> usize
    requires { at ≤ length text.now }
    ensures { White text.now at result }
{
    for i in at..text.len() {
        if !is_white(text, i) {
            return i;
        }
    }
    text.len()
}

// Past the bytes of a word.
fn take_word(at: Cursor) -> Cursor
    ensures { Scanned in_word at.entry result }
{
    at.pass(in_word)
}

// What a word is. No match of byte strings: it looks at byte after byte, and the proof for the words that are none of
// the six, which it finds in 42 ways, did not close.
#[tactic(auto, unfolding(crate::specs::Next::word_code))]
fn word(name: &[u8]) -> Kind
    requires { 0 < length name.now }
    ensures { number_of result ≡ word_code name.now }
{
    if same(name, b"module") {
        return Kind::Module;
    }
    if same(name, b"input") {
        return Kind::Input;
    }
    if same(name, b"output") {
        return Kind::Output;
    }
    if same(name, b"wire") {
        return Kind::Wire;
    }
    if same(name, b"assign") {
        return Kind::Assign;
    }
    if same(name, b"endmodule") {
        return Kind::EndModule;
    }
    if name.len() <= LONGEST && is_letter(name[0]) {
        return Kind::Name;
    }
    Kind::Other
}

// What a byte outside words is.
fn sign(byte: u8) -> Kind
    ensures { number_of result ≡ sign_code byte }
{
    match byte {
        b'(' => Kind::Open,
        b')' => Kind::Close,
        b';' => Kind::Semicolon,
        b',' => Kind::Comma,
        b'=' => Kind::Equals,
        b'~' => Kind::Not,
        b'&' => Kind::And,
        b'^' => Kind::Xor,
        _ => Kind::Other,
    }
}

/// The next token from a place.
pub fn next(text: &[u8], at: usize) -> Token
    requires { at ≤ length text.now }
    ensures { TokenAt text.now at (number_of result.kind) result.from result.to }
{
    let from = skip_white(text, at);
    if text.len() <= from {
        return Token {
            kind: Kind::End,
            from,
            to: from,
        };
    }
    let b = text[from];
    if !in_word(b) {
        return Token {
            kind: sign(b),
            from,
            to: from + 1,
        };
    }
    let end = take_word(Cursor { text, at: from });
    let to = end.at;
    Token {
        kind: word(&text[from..to]),
        from,
        to,
    }
}
