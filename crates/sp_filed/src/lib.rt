//! Plan files as they are read.
#![tactic(auto)]

mod entries;
mod error;
mod events;
mod heads;
mod laws;
mod logs;
mod moves;
mod options;
mod read;
mod sections;
mod sizes;
mod stops;
mod tails;
mod tasks;
mod values;

pub use error::{PlanError, PlanKind};
pub use laws::{plan_files_are_not_at_fault, plan_files_tell_one_run, sources_are_at_fault_once};
pub use read::{read_any, read_plan};
pub use tasks::Filed;
