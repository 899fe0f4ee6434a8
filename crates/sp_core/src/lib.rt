//! The book of a planning run by point-based value iteration (Spaan and Vlassis 2005): the editions that were published, what has
//! entered the next one, and the events that led there.
//!
//! A call of a book is one step of the theory's book, or changes no event. `specs/Books.antt` says what contracts see of a book and
//! what its type keeps; `specs/Settling.antt` and `specs/Pruning.antt` say what each step does.
#![tactic(auto)]

mod answers;
mod book;
mod laws;
mod ledger;
mod opening;
mod picking;
mod plans;
mod pruning;
mod settling;

pub use answers::{PruneError, Pruned, SettleError, Settled};
pub use book::Book;
pub use laws::{books_are_sound, dominated_may_be_pruned};
