//! Masking and leaks: what Mask writes for a source, what a leak is, and the theorems that join them. Definitions stand
//! in specs/, theorems in proofs/.
#![tactic(auto)]
