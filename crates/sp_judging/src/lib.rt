//! Plan files that strangers hand over: what a file tells, whether its run and its logs are legal and its values true, and what is
//! written of it.
//!
//! `specs/PlanFiles.antt` says which files are legal, and why others aren't; `specs/ActTexts.antt` which logs a script has on one.
#![tactic(auto)]

mod acting;
mod error;
mod judging;
mod laws;
mod notes;
mod texts;

pub use acting::act_text;
pub use error::JudgeError;
pub use judging::{LegalPlan, judged_plan};
pub use laws::{
    files_with_values_stay, legal_files_are_not_refused, legal_files_are_sound,
    migrated_files_are_legal, one_run_file, one_script_file, run_files_are_legal,
    script_files_are_legal,
};
pub use texts::{audit_text, migrated_text};
