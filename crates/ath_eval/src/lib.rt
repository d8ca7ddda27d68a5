//! Evaluation of phrases under a bound on steps.
#![tactic(auto)]

mod building;
mod calls;
mod connectives;
mod frame;
mod kinds;
pub mod laws;
mod machine;
mod methods;
mod names;
mod parts;
mod quantifiers;
mod refusals;
mod symbols;
pub mod world;

pub use machine::run;
pub use refusals::build_fault;
pub use world::{Outcome, World};
