//! One worker.

ghost use Rattle.std.specs.Prelude.{◌≡◌, ◌<◌, IfOk, length};
ghost use Rattle.std.specs.Arc.{arc_value};
ghost use Rattle.sp_core.specs.Settling.{AreSampledWorths};

use crate::gate::Gate;
use crate::locked::Locked;
use rand_core::{Rng, SeedableRng};
use rand_pcg::Lcg128Xsl64;
use sp_backup::{Projections, point_backup};
use sp_dd::NoMemory;
use sp_ledger::{ListedTask, weigh, zero_values};
use sp_publish::ListName;
use sp_value::{Candidate, Edition};
use std::alloc::Global;
use std::marker::PhantomData;
use std::sync::{Arc, Mutex, Wait};

/// How many projections of vectors a worker may keep.
const KEPT: u64 = 1024;

/// Backs up beliefs by the words of a seed until the run is over or memory runs out, and then is at work no longer.
pub(crate) fn work<N: ListName, G: Gate, R: Wait, L: Wait + Drop>(
    rt: &R,
    alloc: Global,
    locked: &Mutex<Locked<N, L>>,
    gate: &G,
    seed: u64,
) {
    let _end = take_turns(rt, alloc, locked, gate, seed);
    locked.lock(rt).stop();
}

/// What a worker has for itself, so that it makes and weighs a backup while others hold the lock.
#[derive(Drop)]
struct Own<N: ListName> {
    kept: Projections,
    listed: ListedTask,
    /// What the vector of the last backup is worth at each sampled belief.
    worths: Vec<i128>,
    of: PhantomData<N>,
    ghost task: { listed ≡ N.first.task },
    ghost room: { length worths.items ≡ N.first.task.options.beliefs },
}

impl<N: ListName> Own<N> {
    fn new(alloc: Global, listed: ListedTask) -> Result<Own<N>, NoMemory>
        requires { listed ≡ N.first.task }
    {
        let kept = Projections::new(alloc, KEPT)?;
        let worths = zero_values(alloc, listed.task().options().beliefs as usize)?;
        Ok(Own {
            kept,
            listed,
            worths,
            of: PhantomData,
        })
    }

    /// The backup at a belief, whose vector is weighed then.
    fn backup(
        &mut self,
        alloc: Global,
        base: &Arc<Edition>,
        belief: u64,
    ) -> Result<Candidate, NoMemory>
        requires belief { belief < (arc_value base.now).task.options.beliefs }
        requires task { (arc_value base.now).task ≡ N.first.task }
        ensures base { IfOk result (λ c. c.base ≡ arc_value base.now) }
        ensures worths { IfOk result (λ c. AreSampledWorths N.first.task c.vector self.new.worths.items) }
    {
        let candidate = point_backup(alloc, base, belief, &mut self.kept)?;
        weigh(
            alloc,
            &self.listed,
            candidate.vector(),
            self.worths.as_mut_slice(),
        )?;
        Ok(candidate)
    }
}

/// Turns until the run is over.
fn take_turns<N: ListName, G: Gate, R: Wait, L: Wait + Drop>(
    rt: &R,
    alloc: Global,
    locked: &Mutex<Locked<N, L>>,
    gate: &G,
    seed: u64,
) -> Result<(), NoMemory> {
    let listed = locked.lock(rt).listed_task()?;
    let mut own = Own::<N>::new(alloc, listed)?;
    let mut words = Lcg128Xsl64::seed_from_u64(seed);
    for _ in rt.forever() {
        if !turn(rt, alloc, locked, gate, &mut own, words.next_u64())? {
            break;
        }
    }
    Ok(())
}

/// One backup outside the lock, with what comes before and after it; and whether there was something to do.
fn turn<N: ListName, G: Gate, R: Wait, L: Wait + Drop>(
    rt: &R,
    alloc: Global,
    locked: &Mutex<Locked<N, L>>,
    gate: &G,
    own: &mut Own<N>,
    word: u64,
) -> Result<bool, NoMemory> {
    let taken = locked.lock(rt).take(word)?;
    let Some(work) = taken else {
        return Ok(false);
    };
    gate.before_backup(work.belief);
    let candidate = own.backup(alloc, work.seen.edition(), work.belief)?;
    locked
        .lock(rt)
        .settle(alloc, &work.seen, candidate, &own.worths, &mut own.kept)?;
    Ok(true)
}
