//! A gate that holds a planner back.

use crate::stopped::Stopped;
use sp_concurrent::Gate;
use std::sync::atomic::{AtomicU64, Ordering};
use std::thread;

/// How often a held backup looks whether it may go on.
const TURNS: u64 = 1 << 28;

/// How many backups are begun before others may have made editions: more than the stage of the first one has.
const LATER: u64 = 12;

/// What the first backup waits for.
#[derive(Clone, Copy, Drop)]
pub enum Until {
    /// A step of a session.
    Step,
    /// A second backup.
    Backup,
    /// Editions that another planner made, which then waits for the first one.
    Editions,
}

impl Until {
    /// The one of this name.
    pub fn of(name: &str) -> Result<Until, Stopped> {
        match name {
            "step" => Ok(Until::Step),
            "backup" => Ok(Until::Backup),
            "editions" => Ok(Until::Editions),
            _ => Err(Stopped),
        }
    }
}

/// Holds the first backup until something else was done beside it. Where that is editions, it holds the other planner of two from then on
/// until the first one comes again, so that the run isn't over before.
#[derive(Drop)]
pub struct Hold {
    until: Until,
    backups: AtomicU64,
    steps: AtomicU64,
    late: AtomicU64,
}

impl Hold {
    /// Nothing was done yet.
    pub fn new(until: Until) -> Hold {
        Hold {
            until,
            backups: AtomicU64::new(0),
            steps: AtomicU64::new(0),
            late: AtomicU64::new(0),
        }
    }

    /// How many backups were begun.
    pub fn backups(&self) -> u64 {
        self.backups.load(Ordering::SeqCst)
    }

    /// Whether each held backup went on before its turns ended.
    pub fn was_released(&self) -> bool {
        self.late.load(Ordering::SeqCst) == 0
    }

    /// Whether the other planner made editions while the first backup was held.
    pub fn is_for_editions(&self) -> bool {
        match self.until {
            Until::Step => false,
            Until::Backup => false,
            Until::Editions => true,
        }
    }

    /// Whether the backup is held before which so many were begun.
    fn holds(&self, before: u64) -> bool {
        before == 0 || (self.is_for_editions() && before == LATER)
    }

    /// Whether the backup may go on before which so many were begun.
    fn is_open(&self, before: u64) -> bool {
        match self.until {
            Until::Step => self.steps.load(Ordering::SeqCst) > 0,
            Until::Backup => self.backups() > 1,
            Until::Editions => self.backups() > before.max(LATER - 1).saturating_add(1),
        }
    }
}

impl Gate for Hold {
    fn before_backup(&self, _belief: u64) {
        let before = self.backups.fetch_add(1, Ordering::SeqCst);
        if !self.holds(before) {
            return;
        }
        for _ in 0..TURNS {
            if self.is_open(before) {
                return;
            }
            thread::yield_now();
        }
        self.late.store(1, Ordering::SeqCst);
    }

    fn after_step(&self) {
        self.steps.fetch_add(1, Ordering::SeqCst);
    }
}
