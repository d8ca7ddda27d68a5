//! What sort texts mean in a signature, and the declarations of domains and symbols.
#![tactic(auto)]

mod checks;
pub mod declaring;
pub mod laws;
mod params;
pub mod texts;

pub use declaring::{DeclareError, check_symbols, declare, declare_domain};
pub use texts::sort_of_text;
