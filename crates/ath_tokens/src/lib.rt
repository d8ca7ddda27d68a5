//! Tokens of a text: the cut into longest tokens, with the first fault.
#![tactic(auto)]

mod bytes;
pub mod laws;
mod lexeme;
pub mod limits;
mod mark;
mod quoted;
mod tokens;

pub use limits::MOST_INDEX_DIGITS;
pub use mark::Mark;
pub use tokens::{LexError, LexKind, Token, Tokens};
