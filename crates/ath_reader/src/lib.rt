//! Directives of a text, one after another, in both spellings.
#![tactic(auto)]

mod kinds;
pub mod laws;
pub mod limits;
mod machine;
mod operators;
mod reader;

pub use limits::{MOST_BYTES, MOST_LEVELS};
pub use operators::OpTable;
pub use reader::{Reader, SyntaxError, SyntaxKind};
