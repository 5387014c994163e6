//! Which gates a dialect has.
ghost use Rattle.std.specs.Prelude.{◌≡◌};
ghost use Rattle.dialect.specs.Dialects.{has_gate};
ghost use Rattle.gates.specs.Numbers.{gate_said};

use dialect::Dialect;
use gates::GateNumbers;

/// Whether a dialect has a gate.
pub fn has_gate(gate: GateNumbers, dialect: Dialect) -> bool
    ensures { result ≡ has_gate dialect (gate_said gate) }
{
    match dialect {
        Dialect::Fashion => true,
        Dialect::Old => gate.kind.is_old(),
    }
}
