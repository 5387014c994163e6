//! Taking the last gate off: question 23, and the session after.
ghost use Rattle.std.specs.Prelude.{◌≡◌};
ghost use Rattle.netlist.specs.Services.{stands_for};
ghost use Rattle.session.specs.Lists.{off_asked};

use crate::Session;
use gates::entries::entry;
use gates::records::SourceRecord;
use netlist::Refusal;

/// The session without its last gate: the masked gates end where those of that gate start.
#[tactic(auto, unfolding(crate::specs::Lists::off_asked))]
pub fn off(session: Session, source: &[SourceRecord]) -> Result<Session, Refusal>
    ensures { stands_for (λ t. t) result ≡ off_asked session source.now }
{
    if session.gates == 0 {
        return Err(Refusal::Gate);
    }
    let last = session.gates as usize - 1;
    Ok(Session {
        gates: session.gates - 1,
        masked: entry(source, last).from,
    })
}
