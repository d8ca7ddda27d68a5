//! What is printed is read back.
#![tactic(auto)]

pub mod laws;
