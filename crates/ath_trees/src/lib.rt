//! Terms and sentences as trees: what they are built of, their sorts, bound names, substitution and instances.
#![tactic(auto)]

pub mod groups;
pub mod laws;
pub mod limits;
pub mod node;

pub use groups::NameGroups;
pub use limits::{MOST_PARTS, MOST_TERM_LEVELS, MOST_TERM_NODES};
pub use node::{Binary, Conn, Quant, SentId, TermId, Var};
