//! Laws of trees of terms and sentences that no code stands on.
#![tactic(auto)]

pub mod laws;
