//! Mask codes: the third code, the code after a code, and the wire that carries a code's mask. The masks' wires and the
//! next wire are values of their own, whose laws say that the numbers counted on from them stay small; where nothing
//! asks that, a wire is a number. Codes are numbers, as C's lists have them, and as numbers the third code is the XOR
//! of two.
ghost use Rattle.std.specs.Prelude.{◌≡◌, ◌<◌, ◌^◌};
ghost use Rattle.masking.specs.Mask.{third, after, mask_wire};

/// The third code of two different codes.
pub fn third_code(first: u8, second: u8) -> u8
    ensures { result ≡ third first second }
{
    first ^ second
}

/// The code after a code: 1 to 2, 2 to 3, 3 to 1.
pub fn code_after(code: u8) -> u8
    ensures { result ≡ after code }
{
    code % 3 + 1
}

/// The wires of the masks, from that of m0 on, whose number is how many input bits there are. It is below 2^31.
#[derive(Clone, Copy)]
pub struct Masks {
    pub first: u32,
    ghost low: { first < 2 ^ 31 },
}

impl Masks {
    /// The mask wire of a code; the first for what is no code.
    pub fn wire(self, code: u8) -> u32
        ensures { result ≡ mask_wire self.first code }
    {
        self.first + u32::from(code.saturating_sub(1))
    }
}

/// The wire from which on the next gates are numbered. It is below 2^31.
#[derive(Clone, Copy)]
pub struct Next {
    pub wire: u32,
    ghost low: { wire < 2 ^ 31 },
}
