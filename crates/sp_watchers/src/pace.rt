//! How fast one thread plans beside others.

use sp_workers::Gate;
use std::sync::atomic::{AtomicU64, Ordering};
use std::thread;

/// How often a backup looks whether the steps before it were made.
pub const TURNS: u64 = 1 << 28;

/// Holds each backup until so many steps were made beside the planner for each backup before it.
#[derive(Drop)]
pub struct Pace {
    each: u64,
    backups: AtomicU64,
    steps: AtomicU64,
    late: AtomicU64,
}

impl Pace {
    /// Nothing was made yet.
    pub fn new(each: u64) -> Pace {
        Pace {
            each,
            backups: AtomicU64::new(0),
            steps: AtomicU64::new(0),
            late: AtomicU64::new(0),
        }
    }

    /// How many backups were made.
    pub fn backups(&self) -> u64 {
        self.backups.load(Ordering::SeqCst)
    }

    /// Whether the steps before each backup were made before its turns ended.
    pub fn was_kept(&self) -> bool {
        self.late.load(Ordering::SeqCst) == 0
    }
}

impl Gate for Pace {
    fn before_backup(&self, _belief: u64) {
        let before = self.backups.fetch_add(1, Ordering::SeqCst);
        let steps = before.wrapping_mul(self.each);
        for _ in 0..TURNS {
            if self.steps.load(Ordering::SeqCst) >= steps || !self.was_kept() {
                return;
            }
            thread::yield_now();
        }
        self.late.store(1, Ordering::SeqCst);
    }

    fn after_step(&self) {
        self.steps.fetch_add(1, Ordering::SeqCst);
    }
}
