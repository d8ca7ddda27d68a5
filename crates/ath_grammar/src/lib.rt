//! The grammar of the language over classified tokens, as a table, and the laws of a reader of it.
#![tactic(auto)]

pub mod action;
pub mod class;
mod directives;
mod forms;
pub mod item;
pub mod laws;
pub mod levels;
pub mod lexeme;
mod phrases;
pub mod production;
pub mod rows;
mod small;
pub mod symbol;

pub use action::{Action, Guard};
pub use class::{Class, DirectiveWord, Mark, Opener, WordClass, same_class};
pub use item::{Attr, Item, Rule, Want};
pub use levels::Levels;
pub use lexeme::Lexeme;
pub use production::Production;
pub use rows::row;
pub use symbol::Symbol;
