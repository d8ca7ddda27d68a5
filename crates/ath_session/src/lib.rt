//! The session: directives one after the other, and the program's one public call.
#![tactic(auto)]

mod desk;
pub mod laws;
pub mod limits;
pub mod session;
pub mod status;
pub mod top;
mod unbuilt;

pub use session::{Next, Reply, Session};
pub use status::Status;
pub use top::athena;
