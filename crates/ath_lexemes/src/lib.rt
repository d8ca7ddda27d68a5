//! What tokens are to the grammar: keywords, reserved words, operators, names with and without dots, and levels.
#![tactic(auto)]

pub mod classify;
pub mod laws;
pub mod levels;
pub mod reserved;

pub use classify::lexeme;
pub use levels::level;
