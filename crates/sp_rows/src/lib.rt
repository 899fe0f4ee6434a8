//! Tables of probabilities: what is judged of their rows, and the tables that a model text leaves out.
//!
//! Values are in ticks of 10^-9.
#![tactic(auto)]

mod kept;
mod rows;
mod tables;

pub use kept::identity;
pub use rows::{bad_row, bad_sum};
pub use tables::{BadRow, Table, is_probability, is_reward, less};
