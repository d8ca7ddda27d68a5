//! Sorts of a many-sorted language with sort variables, their instances, and signatures over them.
#![tactic(auto)]

pub mod laws;
pub mod limits;
mod matching;
mod shared;
pub mod signature;
pub mod sorts;
pub mod substitution;
#[cfg(test)]
mod tests;

pub use matching::instance;
pub use shared::Shared;
pub use signature::{Flaw, SigError, Signature, Symbol};
pub use sorts::{SVar, Sort, Sym};
pub use substitution::SortSubst;
