//! The words of the command line: which commands there are, and what they ask for.
#![tactic(auto)]

mod commands;
mod job;
mod laws;
mod pieces;
mod reading;
mod taken;

pub use job::{Job, Name, PlanWords, WordsError};
pub use laws::words_ask_once;
pub use reading::read_words;
pub use taken::read_by_parser;
