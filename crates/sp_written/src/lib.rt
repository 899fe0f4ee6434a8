//! What written trees, sections and texts mean: a crate of laws, which does nothing when it runs.
#![tactic(auto)]

mod laws;

pub use laws::{nodes_are_accepted, written_models_are_read};
