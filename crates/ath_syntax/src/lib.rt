//! The abstract syntax of the language: places, phrases, patterns, sort texts and directives, and the numbered nodes
//! of phrases and patterns.
#![tactic(auto)]

pub mod directive;
pub mod laws;
pub mod node;
pub mod phrases;
pub mod place;
pub mod text;

pub use directive::{Directive, What};
pub use node::{Form, Node, PatId, PatNode, PhraseId, SortText};
pub use phrases::Phrases;
pub use place::{Group, Pos};
pub use text::Text;
