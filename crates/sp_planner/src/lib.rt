//! Planning on one thread, from a model to its finished book or run, and from a book that others began to its end.
//!
//! `specs/Planned.antt` says what is planned, and what may be trusted of it; `specs/Pauses.antt` where a run pauses for other work.
#![tactic(auto)]

mod between;
mod laws;
mod planning;
mod summary;
mod values;

pub use between::{BetweenTurns, Idle};
pub use laws::{finished_books_are_planned, finished_books_are_trusted};
pub use planning::{finish, open_book, plan, plan_book};
pub use summary::{Summary, summarize};
pub use values::opening_values;
