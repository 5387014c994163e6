//! What ends a line: LF or CR LF.
ghost use Rattle.std.specs.Prelude.{◌≡◌, eqb};
ghost use Rattle.netlist.specs.Text.{cr, is_space, is_line_end, without_end};

/// The CR of CR LF.
pub fn is_cr(byte: u8) -> bool
    ensures { result ≡ eqb byte cr }
{
    byte == b'\r'
}

/// The last byte of a line's end.
pub fn is_line_end(byte: u8) -> bool
    ensures { result ≡ is_line_end byte }
{
    byte == b'\n'
}

/// What stands between words: a space, or the CR of a line's end.
pub fn is_space(byte: u8) -> bool
    ensures { result ≡ is_space byte }
{
    byte == b' ' || is_cr(byte)
}

/// The bytes without the one LF or CR LF at their end.
pub fn without_end(text: &[u8]) -> &[u8]
    ensures { result.now ≡ without_end text.now }
{
    match text.strip_suffix(b"\n") {
        None => text,
        Some(line) => line.strip_suffix(b"\r").unwrap_or(line),
    }
}
