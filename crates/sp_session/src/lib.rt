//! Sessions that act on the editions of a run, and their logs.
//!
//! Contracts see a session as its name, its task, its log so far and the editions that it answered on (`specs/Sessions.antt`), and
//! a transcript as a list of logs (`specs/Logs.antt` says which log of `sp_theory` each of them is).
#![tactic(auto)]

mod acting;
mod answers;
mod laws;
mod logs;

pub use acting::Session;
pub use answers::{Answer, ObserveError};
pub use laws::{closed_logs_are_legal, sessions_are_of_runs};
pub use logs::{Entries, Entry, SessionLog, Transcript};
