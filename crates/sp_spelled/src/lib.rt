//! Texts spelled token by token, and what is read of them: a crate of laws, which does nothing when it runs.
#![tactic(auto)]

mod laws;

pub use laws::{shown_decimals_are_read, spelled_signs_are_tokens, written_texts_are_read};
