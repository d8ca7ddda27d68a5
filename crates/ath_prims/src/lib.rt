//! The primitive methods on connectives: a table of schemata, and what reads it.
#![tactic(auto)]

pub mod applying;
mod bindings;
mod conclude;
pub mod laws;
pub mod method;
pub mod schema;
mod shapes;

pub use applying::{Argument, PrimError, apply};
pub use method::{Method, row};
pub use schema::{Conclusion, Part, Premise, Row, Shape};
