//! The events of a planning run.

use crate::tasks::Task;
use sp_dd::{Ids, Pairs};
use sp_model::Sequence;
use std::sync::Arc;

/// What happens to the book of a run.
#[derive(Drop)]
pub enum Event {
    /// A backup at a sampled belief on the edition of the number `base`.
    Settle {
        /// The number of the sampled belief.
        belief: u64,
        base: u64,
        /// The number of the action.
        action: u64,
        /// The record that each joint observation leads to, in the order of the observations' numbers.
        links: Ids,
    },
    /// The grown list becomes the next edition.
    Publish,
    /// Of each pair of ids the first leaves the latest edition.
    Prune {
        pairs: Pairs,
    },
    /// The run is over.
    End,
}

pub type Events = Sequence<Event>;

/// A run: its events, in order.
#[derive(Drop)]
pub struct Run {
    pub task: Arc<Task>,
    pub events: Events,
}

/// Numbers of ticks: for each edition its value at belief 0, in ticks of 10^-9.
pub type Values = Sequence<i128>;
