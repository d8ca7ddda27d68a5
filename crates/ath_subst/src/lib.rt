//! Substitution in terms and sentences of a store. Only what it changes has new nodes.
#![tactic(auto)]

pub mod binders;
pub mod captures;
pub mod counts;
pub mod error;
pub mod keeping;
pub mod kept;
pub mod meeting;
pub mod nodes;
pub mod occurrences;
pub mod putting;
pub mod renaming;
pub mod replacing;
pub mod sentences;
pub mod substitution;
pub mod terms;

pub use error::SubstError;
