//! Equality of values, as `equal?` and patterns in which a name is bound twice have it.
#![tactic(auto)]

pub mod equality;

pub use equality::are_equal;
