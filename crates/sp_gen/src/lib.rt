//! Generated models: a large valid model text from a number.
#![tactic(auto)]

mod models;

pub use models::generated;
