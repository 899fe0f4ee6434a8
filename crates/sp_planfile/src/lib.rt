//! The text of a plan file.
#![tactic(auto)]

mod events;
mod files;
mod laws;
mod logs;
mod sessions;
mod values;
mod writing;

pub use files::{plan_text, plan_text_2};
pub use laws::{no_text_is_beginning, text_tells_contents};
pub use sessions::sessions_text;
pub use writing::text_with_model;
