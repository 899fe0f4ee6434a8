//! Desks: acting sessions by name, on the newest published edition.
//!
//! A desk has a viewer of a published list, and answers on the newest edition that the viewer gives; no call waits. Contracts see
//! a desk as its task, what it knows of the list, and its sessions. `specs/Asked.antt` says what each call does.
#![tactic(auto)]

mod closing;
mod desk;
mod errors;
mod laws;
mod runs;
mod seats;
mod serving;

pub use desk::Desk;
pub use errors::{AskError, DeskError, NotOpen};
pub use laws::{desk_runs_serve, desks_are_legal};
pub use runs::DeskRun;
pub use seats::Seat;
