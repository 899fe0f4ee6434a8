//! Reads the bytes of a model file: the model that they mean, or where and why they are refused.
#![tactic(auto)]

mod kinds;
mod laws;
mod source;

pub use laws::{accepted_is_not_refused, one_model, one_refusal};
pub use source::{ReaderError, read_model};
