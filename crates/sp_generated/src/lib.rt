//! The generated texts are models: a crate of laws, which does nothing when it runs.
#![tactic(auto)]

mod laws;

pub use laws::generated_models_are_read;
