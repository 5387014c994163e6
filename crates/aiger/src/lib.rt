//! AIGER files (docs/RULES.md, AIGER): the definitions are in specs/, the theorems about them in proofs/.
#![tactic(auto)]
