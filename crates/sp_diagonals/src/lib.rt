//! Functions where many state variables keep their values: one walk for all of them.
//!
//! Where the tables of variables that follow one another lead from each value to the same value, weighing those variables out, or
//! multiplying by their tables and summing them out, gives each of one slot the value of the other.
#![tactic(auto)]

mod diagonals;
mod identity;
mod parts;

pub use diagonals::{Side, on_diagonals};
pub use identity::keeps_value;
