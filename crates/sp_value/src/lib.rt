//! Planning tasks, editions of value vectors, point-based backups as candidates, and the events of a run.
//!
//! Contracts see a task, an edition and a candidate as their parts. `specs` says what each type keeps, and which task, edition
//! and event of `sp_theory` each of them is.
#![tactic(auto)]

mod candidates;
mod editions;
mod events;
mod laws;
mod same;
mod scores;
mod tasks;

pub use candidates::Candidate;
pub use editions::{Edition, Member, Members};
pub use events::{Event, Events, Run, Values};
pub use laws::{candidates_are_backups, candidates_are_close, candidates_are_low};
pub use scores::is_better;
pub use tasks::{Explore, Options, Task};
