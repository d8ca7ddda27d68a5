//! The values of what is read of a directive, and what the grammar's actions make of them.
#![tactic(auto)]

mod actions;
pub mod names;
mod place;
mod values;

pub use names::{BindingList, NameList};
pub use values::Values;
