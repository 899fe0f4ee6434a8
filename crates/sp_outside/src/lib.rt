//! The outside of the program: named content that is read, and places that bytes are written to.
//!
//! A [`Store`] and a [`Sink`] count their failed calls. A call may answer that it failed only where its count rose, so that a
//! caller's contract can tell a fault of the outside from a wrong answer of its own. Whether content or written bytes are told
//! to contracts is each store's and each sink's own choice: those in memory tell them, those of the system do not.
#![tactic(auto)]

mod files;
mod memory;
mod sink;
mod store;
mod system;

pub use files::Files;
pub use memory::{MemSink, MemStore};
pub use sink::{Sink, write_whole};
pub use store::{ReadError, Store, read_whole};
pub use system::{DirStore, StdSink};
use thiserror::Error;

/// A read or a write that the outside did not carry out.
#[derive(Clone, Copy, Debug, Drop, PartialEq, Eq, Error)]
#[error("the outside failed")]
pub struct Failed;
