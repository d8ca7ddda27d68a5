//! Tests of the assumption base.
#![tactic(auto)]

#[cfg(test)]
mod base;
