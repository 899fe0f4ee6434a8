//! What a decision tree of a model text means, as a function of slots, and the least refusal inside it.
//!
//! `specs/Judge.antt` judges a tree by one fold over it. `specs/Values.antt` tells a tree's value at a point straight from the text,
//! and `values_are_the_trees` proves that the functions of the fold have these values.
#![tactic(auto)]

mod conditions;
mod env;
mod judged;
mod laws;
mod lists;
mod meaning;
mod nodes;
mod refusal;
mod single;
mod slots;
mod words;

pub use env::{Dd, Dds, Env, Shared};
pub use judged::{Judged, Listed};
pub use laws::{rows_are_refusals, trees_are_told, values_are_the_trees};
pub use lists::Op;
pub use meaning::judge;
pub use nodes::{Branching, Place, place_of};
pub use refusal::{ModelKind, Refusal, lesser, refused_if};
pub use slots::Slots;
pub use words::{number_of, text};
