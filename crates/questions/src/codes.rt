//! Input codes.
ghost use Rattle.questions.specs.Codes.{AreCodes};

/// A list of input codes, to read: each entry is 0 to 3, as question 11 asks.
#[derive(Clone, Copy)]
pub struct Codes<'a> {
    pub list: &'a [u8],
    ghost small: { AreCodes list.now },
}
