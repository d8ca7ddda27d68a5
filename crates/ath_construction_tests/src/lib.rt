//! Tests of the constructions of terms and sentences.
#![tactic(auto)]

#[cfg(test)]
mod construction;
