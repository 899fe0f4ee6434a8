//! Scopes of points, the meaning of functions on them, laws of floors, and the lists that public types share.
//!
//! A scope has slots, and a point gives each slot a value. State variable `i` has slot `2i` for its value now (unprimed) and
//! slot `2i + 1` for its next value (primed); the slots behind those belong to observation variables.
//! `specs/Func.antt` says what a function of points is, and `specs/Operations.antt` what each operation answers.
#![tactic(auto)]

mod bundle;
mod bundle_memo;
mod chains;
mod diagram;
mod draft;
mod laws;
mod leaves;
mod lists;
mod marks;
mod memo;
mod mixing;
mod nodes;
mod part;
mod shared;
mod short;
mod slots;
mod walk;
mod words;

pub use bundle::{Bundle, BundleSource};
pub use diagram::{Diagram, one_list_law, reduced_law};
pub use laws::{floor_law, least_law, monotone_law, most_law};
pub use lists::{Ids, Pairs};
pub use memo::{Choice, Memo, State};
pub use nodes::Nodes;
pub use part::Part;
pub use slots::Scope;
use std::alloc::AllocError;
pub use walk::{Source, Step};

/// One in ticks: probabilities and values are whole numbers of ticks of 10^-9.
pub const TICKS: i128 = 1_000_000_000;

/// Want of memory.
#[derive(Clone, Copy, Debug, Drop, PartialEq, Eq)]
pub struct NoMemory;

impl From<AllocError> for NoMemory {
    fn from(_: AllocError) -> Self {
        NoMemory
    }
}
