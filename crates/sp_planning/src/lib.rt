//! Plan files as they are planned: from a model, options and a chooser to the text.
//!
//! `specs/PlanFiles.antt` says which text that is, `specs/ScriptFiles.antt` which one where a script is served, and
//! `specs/RunFiles.antt` what holds of the text of any run, however many threads planned it.
#![tactic(auto)]

mod books;
mod files;
mod laws;
mod numbers;
mod scripts;

pub use books::book_file;
pub use files::plan_file;
pub use laws::{
    empty_scripts_change_nothing, model_texts_have_lines, plan_files_are_run_files,
    script_files_are_run_files,
};
pub use scripts::script_file;
