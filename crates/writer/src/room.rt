//! Whether a buffer has room for a text whose lines are not measured.
ghost use Rattle.std.specs.Prelude.{◌≡◌, ◌+◌, ◌*◌, leb};
ghost use Rattle.writer.specs.Room.{longest_line};

/// Whether `room` bytes hold a header of `header` bytes and as many of the longest lines on `wires` wires as there are
/// gates.
pub fn ample(room: usize, header: usize, gates: usize, wires: usize) -> bool
    ensures { result ≡ leb (header + gates * longest_line wires) room }
{
    let mut none = [0u8; 1];
    // As `longest_line` says: three numbers, and eleven bytes more.
    let longest = 3 * crate::number(&mut none, 0, wires) + 11;
    header <= room && gates <= (room - header) / longest
}
