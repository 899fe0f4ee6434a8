//! The pruner.

ghost use Rattle.std.specs.Prelude.{◌≡◌};

use crate::locked::Locked;
use crate::sections::{Look, dominated_in};
use sp_dd::NoMemory;
use sp_publish::ListName;
use std::alloc::Global;
use std::sync::{Mutex, Wait};
use std::thread;

/// How often the pruner leaves its place to others before it looks again.
const PAUSE: u64 = 256;

/// Prunes dominated members of each new edition until the run is over, no worker is at work or memory runs out.
pub(crate) fn prune<N: ListName, R: Wait, L: Wait + Drop>(
    rt: &R,
    alloc: Global,
    locked: &Mutex<Locked<N, L>>,
) {
    let mut examined = 0;
    for _ in rt.forever() {
        match examine(rt, alloc, locked, examined) {
            Ok(Some(number)) => examined = number,
            Ok(None) => return,
            Err(_) => return,
        }
    }
}

/// Prunes the latest edition, where this number isn't its, and gives the number of the last edition that is examined then; none
/// where there is nothing more to prune.
fn examine<N: ListName, R: Wait, L: Wait + Drop>(
    rt: &R,
    alloc: Global,
    locked: &Mutex<Locked<N, L>>,
    examined: u64,
) -> Result<Option<u64>, NoMemory> {
    let look = locked.lock(rt).look(examined)?;
    match look {
        Look::Over => Ok(None),
        Look::Examined => {
            pause();
            Ok(Some(examined))
        }
        Look::Newer(seen) => {
            let base = seen.edition();
            let pairs = dominated_in(alloc, base)?;
            if pairs.len() > 0 {
                locked.lock(rt).prune(&seen, base, &pairs)?;
            }
            Ok(Some(seen.number()))
        }
    }
}

/// Leaves its place to others for a while.
fn pause() {
    for _ in 0..PAUSE {
        thread::yield_now();
    }
}
