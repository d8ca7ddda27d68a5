//! Unification of sorts, as code and as a function.
#![tactic(auto)]

mod graph;
pub mod laws;
mod nodes;
mod partition;
#[cfg(test)]
mod tests;
pub mod unification;

pub use unification::{UnifyError, unify};
