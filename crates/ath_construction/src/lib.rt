//! Constructions by the user: what they unify, and what they build.
#![tactic(auto)]

pub mod application;
pub mod closure;
pub mod connectives;
pub mod equations;
pub mod pairs;
pub mod quantifiers;
pub mod term;

pub use application::app;
pub use closure::universal_closure;
pub use connectives::connective;
pub use equations::equation;
pub use quantifiers::quantify;
pub use term::{ascribe, atom};
