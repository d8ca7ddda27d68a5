//! Faults and events, and the lines that tell them.
#![tactic(auto)]

mod draft;
pub mod event;
pub mod fault;
pub mod limits;
pub mod lines;
mod pieces;
mod sents;
mod sorts;
mod terms;
mod words;

pub use event::Event;
pub use fault::{Fault, FaultArg, FaultKind};
pub use lines::{line, line_bytes};
pub use pieces::{push, push_quoted};
