//! Values, and the values that names find.
#![tactic(auto)]

pub mod lookup;
pub mod value;

pub use lookup::{look_up, text_of};
pub use value::{Value, sentence, value_of};
