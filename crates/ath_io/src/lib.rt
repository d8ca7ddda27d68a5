//! Where scripts come from and where lines go: a shelf of texts by name, and a sink of bytes.
#![tactic(auto)]

pub mod dir_shelf;
pub mod memory_shelf;
pub mod memory_sink;
pub mod out_sink;
pub mod shelf;
pub mod sink;
#[cfg(test)]
mod tests;

pub use dir_shelf::DirShelf;
pub use memory_shelf::MemoryShelf;
pub use memory_sink::MemorySink;
pub use out_sink::OutSink;
pub use shelf::{FetchError, Shelf};
pub use sink::{PutFailed, Sink};
