//! Whether a given run and its logs are legal, and if not, where and why; and what a legal run amounts to.
//!
//! `specs/Verdicts.antt` says what is answered, by the clauses of `sp_faults`.
#![tactic(auto)]

mod calls;
mod clause;
mod entries;
mod judging;
mod judgments;
mod laws;
mod logs;
mod pruning;
mod replays;
mod runs;
mod seats;
mod states;
mod verdict;

pub use calls::{audit, audit_values, last_edition, values_of};
pub use clause::Clause;
pub use judgments::{Judgment, judged};
pub use laws::{is_wrong_once, legal_runs_keep_their_word, nothing_is_neither, wrong_is_not_legal};
pub use replays::Replay;
pub use verdict::Verdict;
