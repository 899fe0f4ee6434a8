//! Workers that plan one book beside each other, with a pruner and with work that is served meanwhile.
//!
//! The book and the publisher of its editions lie under one lock. `specs/Shared.antt` says what holds whenever the lock is free,
//! and `specs/Sections.antt` what is done while it is held: one settle with what is due then, one prune, or no event. Backups and
//! the search for dominated members are made outside the lock.
#![tactic(auto)]

mod besides;
mod finishing;
mod gate;
mod joining;
mod locked;
mod pruner;
mod publishing;
mod sections;
mod worker;

pub use finishing::finish;
pub use gate::{FreeGate, Gate};
pub use joining::{Besides, Joined, plan_beside};
pub use publishing::publish_rest;
