//! Assumption bases.
#![tactic(auto)]

pub mod base;
pub mod entry;

pub use base::{Base, Node, ScopeId};
pub use entry::{Entry, Origin};
