//! The canonical text of a model is read back as that model.
#![tactic(auto)]

mod determined;
mod laws;
mod text;

pub use determined::functions_law;
pub use laws::{canonical_declarations_are_read, canonical_text_is_read_back};
pub use text::{canonical_text, text_law};
