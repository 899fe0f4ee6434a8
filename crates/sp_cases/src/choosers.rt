//! Choosers that count their drops.

ghost use Rattle.std.specs.Prelude.{◌≡◌};

use sp_choose::Chooser;
use std::sync::Arc;
use std::sync::atomic::{AtomicU64, Ordering};

/// A chooser that adds 1 to a number when it is dropped.
pub struct Counted<C: Chooser> {
    chooser: C,
    drops: Arc<AtomicU64>,
}

impl<C: Chooser> Counted<C> {
    /// It is counted there.
    pub fn new(chooser: C, drops: Arc<AtomicU64>) -> Counted<C>
        ensures { result.chooser ≡ chooser }
    {
        Counted { chooser, drops }
    }
}

impl<C: Chooser> Chooser for Counted<C> {
    ghost machine = { λ c. C.machine c.chooser };

    fn choose(&mut self, depth: u64, actions: u64, word: u64) -> u64 {
        self.chooser.choose(depth, actions, word)
    }
}

impl<C: Chooser> Drop for Counted<C> {
    fn drop(self) {
        self.drops.fetch_add(1, Ordering::SeqCst);
        let Counted {
            chooser: _,
            drops: _,
        } = self;
    }
}
