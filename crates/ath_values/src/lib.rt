//! Values and environments in full: closures hold their whole environment, and what environments have in common stands once.
#![tactic(auto)]

pub mod envs;
pub mod laws;
pub mod value;

pub use envs::Envs;
pub use value::{EnvId, Kind, Member, Value, ValueError, ValueId};
