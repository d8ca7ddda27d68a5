//! Terms and sentences as numbered nodes, each of which stands for a tree.
#![tactic(auto)]

pub mod apart;
pub mod digest;
pub mod equality;
pub mod found;
pub mod fresh;
pub mod key;
pub mod limits;
pub mod marks;
pub mod measure;
pub mod node;
pub mod plain;
pub mod sort_vars;
pub mod store;
pub mod variables;

pub use found::FoundVars;
pub use fresh::Fresh;
pub use key::NameKey;
pub use marks::Marks;
pub use measure::BuildError;
pub use node::{SentNode, TermNode};
pub use store::Store;
