//! The certifier's answer as a number; what it tells stands in its lists already.
ghost use Rattle.std.specs.Prelude.{◌≡◌};
ghost use Rattle.capi.specs.Certified.{certified_number};

use crate::answers::minus;
use certify::judge::{Certified, Verdict};

/// 0 for clean, 1 for a leak, 2 for a wire not known to be clean, or minus the number of the question.
pub fn number_of(answer: Certified) -> i64
    ensures { result ≡ certified_number answer }
{
    match answer {
        Ok(Verdict::Clean) => 0,
        Ok(Verdict::Leak) => 1,
        Ok(Verdict::Unknown) => 2,
        Err(question) => minus(question),
    }
}
