//! The commands of the program: from words and files to texts and a status.
#![tactic(auto)]

mod concurrent;
mod fault;
mod file;
mod help;
mod inputs;
mod jobs;
mod laws;
mod lines;
mod plans;
mod run;
mod scripts;
mod status;
mod texts;

pub use concurrent::{run_gated, run_tool};
pub use laws::{
    files_end_once, help_is_whole, one_plan, planned_files_are_legal, shown_texts_are_kept,
};
pub use run::run_plain;
pub use status::Status;
