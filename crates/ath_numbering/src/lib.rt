//! What is read, as trees, and numbers for them: nodes made of what is read.
#![tactic(auto)]

pub mod kind;
pub mod number;
pub mod pattern;
pub mod statement;
pub mod tree;

pub use statement::number_directive;
pub use tree::{
    ClauseWord, ClosureWord, DirectiveTree, HypothesisWord, LetWord, PatternTree, PhraseTree,
    StatementTree,
};
