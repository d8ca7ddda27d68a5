//! Sorted natural deduction: which sentences have a derivation.
#![tactic(auto)]

pub mod laws;
