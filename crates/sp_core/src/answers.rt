//! What a book answers.

use sp_value::{Candidate, Edition};
use std::sync::Arc;

/// What a settle brought to the grown list.
#[derive(Clone, Copy, Debug, Drop, PartialEq, Eq)]
pub enum Settled {
    /// The new record of this number has entered.
    Added(u64),
    /// The new record is worth less at its belief than the latest edition, whose greatest member there has entered: this record.
    Kept(u64),
    /// Nothing has entered: the belief is improved, and the new record is worth no more there than the grown list.
    Late,
    /// The run is over, and nothing was recorded.
    Over,
}

/// Why a candidate wasn't settled. It is handed back.
#[derive(Drop)]
pub enum SettleError {
    /// Its base isn't an edition of this book. The book's edition of that number is given, where there is one.
    NotOurs {
        candidate: Candidate,
        kept: Option<Arc<Edition>>,
    },
    /// Want of memory.
    NoMemory {
        candidate: Candidate,
    },
}

/// What a prune did.
#[derive(Clone, Copy, Debug, Drop, PartialEq, Eq)]
pub enum Pruned {
    /// So many members have gone.
    Dropped { count: u64 },
    /// No pair applied, and nothing was recorded.
    Nothing,
    /// The run is over, and nothing was recorded.
    Over,
}

/// Why pairs weren't pruned.
#[derive(Drop)]
pub enum PruneError {
    /// The base isn't an edition of this book. The book's edition of that number is given, where there is one.
    NotOurs {
        base: Arc<Edition>,
        kept: Option<Arc<Edition>>,
    },
    /// Want of memory.
    NoMemory,
}
