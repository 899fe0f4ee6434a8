//! Plan files of what several threads plan, with the sessions of a script that act meanwhile.
//!
//! The sessions are dealt to desks (`specs/Deals.antt`), each of which serves its commands beside the planners. Their logs are put
//! together in order of opening (`specs/Gathered.antt`).
#![tactic(auto)]

mod closing;
mod deals;
mod files;
mod gathering;
mod laws;
mod opening;
mod planning;
mod queues;

pub use files::concurrent_file;
pub use laws::parts_serve_the_whole;
pub use sp_workers::{FreeGate, Gate};
