//! Texts of a model's numbers.
#![tactic(auto)]

mod decimals;

pub use decimals::{decimal, push_decimal};
