//! The canonical text of a model.
#![tactic(auto)]

mod actions;
mod declarations;
mod init;
mod laws;
mod nodes;
mod page;
mod tables;
mod text;
mod words;

pub use laws::nodes_tell_dependence;
pub use text::model_text;
