//! Session scripts: what sessions do, one command on each line.
//!
//! `specs/Grammar.antt` has the grammar of a line, `specs/Script.antt` says what a script's commands are and when a line is at
//! fault, and `specs/Served.antt` when logs serve a script.
#![tactic(auto)]

mod command;
mod error;
mod laws;
mod ledger;
mod lines;
mod reading;
mod request;

pub use command::{Command, Commands};
pub use error::{ScriptError, ScriptKind};
pub use laws::{
    observations_are_named, observations_are_within, requests_are_said, scripts_are_not_refused,
    some_sessions_are_served, some_sessions_have_commands, texts_are_refused_once,
};
pub use reading::read_script;
