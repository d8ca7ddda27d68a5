//! Sentences that are one but for the names and indices of their bound variables, their keys, and their sort instances.
#![tactic(auto)]

pub mod alike;
mod binders;
pub mod instance;
pub mod key;
pub mod laws;
mod matching;

pub use alike::is_alpha_equal;
pub use instance::sort_instance;
pub use key::alpha_key;
