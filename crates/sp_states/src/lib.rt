//! Functions of states as lists, for sums over few states.
//!
//! A weights function that is above 0 at few states is listed by those, and a function with one value for each state by all of its
//! values: `dot` then reads each state of weight once, and takes no memory. Both are for scopes of few states.
#![tactic(auto)]

mod cofactor;
mod sums;
mod support;
mod table;
mod widths;

pub use sums::dot;
pub use support::SupportList;
pub use table::ValueTable;
pub use widths::MOST_STATES;
