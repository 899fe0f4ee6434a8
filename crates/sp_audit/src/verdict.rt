//! Verdicts.

use crate::clause::Clause;

/// Whether a run and its logs are legal; if not, the first event or entry that is wrong, and the clause that it breaks.
#[derive(Clone, Copy, Debug, Drop, PartialEq, Eq)]
pub enum Verdict {
    Legal,
    Wrong {
        /// The number of the log, counted from 0; none where it is an event of the run.
        session: Option<u64>,
        /// The number of the event, or of the log's entry, counted from 1. One more than there are where the last one is missing.
        event: u64,
        clause: Clause,
    },
}
