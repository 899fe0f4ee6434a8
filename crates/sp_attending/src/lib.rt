//! Scripts of acting sessions that are served while one thread plans.
//!
//! `specs/Runs.antt` says which logs a script has then, and `specs/Attending.antt` what is served at a book.
#![tactic(auto)]

mod attending;
mod planning;

pub use planning::finish_serving;
