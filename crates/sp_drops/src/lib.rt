//! Which pairs of members apply, and which members they leave.
#![tactic(auto)]

mod drops;

pub use drops::{applied, left};
