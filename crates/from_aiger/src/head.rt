//! The opening and the header.
ghost use Rattle.std.specs.Prelude.{◌≡◌};
ghost use Rattle.netlist.specs.Services.{stands_for};
ghost use Rattle.aiger.specs.Lines.{opens};
ghost use Rattle.from_aiger.specs.HeadAnswers.{head_said, head_asked, HeadIs};

use crate::counts::HeadNumbers;
use crate::lines::Lines;
use netlist::{Limits, Refusal};
use text::bytes::same;

// What a file begins with.
const OPENING: [u8; 4] = *b"aag ";

// Whether a text begins so.
fn is_opening(text: &[u8]) -> bool
    ensures { result ≡ opens text.now }
{
    same(&text[..text.len().min(OPENING.len())], &OPENING)
}

// 19 for a header without inputs or outputs or with too many variables, then 20 for one with latches.
fn question(header: HeadNumbers, limits: Limits) -> Result<(), Refusal>
    ensures { stands_for (λ u. u) result ≡ head_asked limits (head_said header) }
{
    if header.inputs < 1 || header.outputs < 1 || limits.wires <= header.most {
        return Err(Refusal::Aiger);
    }
    if header.latches != 0 {
        return Err(Refusal::Latches);
    }
    Ok(())
}

/// 19 for the opening, then 19 and 20 for the header; answers an admitted one with the lines after it.
pub fn head(text: &[u8], limits: Limits) -> Result<(HeadNumbers, Lines<'_>), Refusal>
    ensures { HeadIs limits text.now result }
{
    if !is_opening(text) {
        return Err(Refusal::Aiger);
    }
    let lines = Lines {
        text,
        at: OPENING.len(),
    };
    let ([most, inputs, latches, outputs, ands], next) = lines
        .numbers::<5>()
        .ok_or(Refusal::Aiger)?;
    let h = HeadNumbers {
        most,
        inputs,
        latches,
        outputs,
        ands,
    };
    question(h, limits)?;
    Ok((h, next))
}
