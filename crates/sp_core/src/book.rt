//! The book of a planning run.

ghost use Rattle.std.specs.Prelude.{◌≡◌, ◌<◌, ◌∷◌, [], false, true, cond, Some, None, IfOk, IfErr, OnErr, MatchResult, IfSome, ◌-◌, length, option_map, slice_get, slice_set};
ghost use Rattle.std.specs.Arc.{arc_value};
ghost use Rattle.sp_theory.specs.OneThread.{picked};
ghost use Rattle.sp_value.specs.Tasks.{task_of};
ghost use Rattle.sp_value.specs.Events.{events_of};

use crate::answers::{PruneError, Pruned, SettleError, Settled};
use crate::ledger::Ledger;
use crate::picking::pick;
use sp_dd::{NoMemory, Pairs};
use sp_ledger::ListedTask;
use sp_model::Sequence;
use sp_value::{Candidate, Edition, Run, Task};
use std::alloc::Global;
use std::marker::Model;
use std::sync::Arc;

/// The book of a planning run: its editions, what has entered since the last one, and the events that led there. Contracts see
/// its task, its events, its editions, and which beliefs are taken.
#[derive(Drop)]
pub struct Book {
    ledger: Ledger,
}

impl Model for Book {
    ghost use Rattle.sp_core.specs.Books.{BookParts};

    ghost Value = { BookParts };

    ghost use Rattle.sp_core.specs.Ledgers.{contents, parts_in, IsLedger};

    ghost view = { λ b. parts_in (contents b.ledger) };

    ghost invariant = { λ b. IsLedger (contents b.ledger) };
}

impl Book {
    ghost use Rattle.sp_core.specs.Books.{BookParts, IsBook, state_of};
    ghost use Rattle.sp_core.specs.Marks.{marks_of};
    ghost use Rattle.sp_core.specs.Opening.{first_parts};
    ghost use Rattle.sp_core.specs.Pruning.{AreDominatedIn, IsPruned, RefusesPrune};
    ghost use Rattle.sp_core.specs.Settling.{AreSampledWorths, IsOurs, IsSettled, RefusesSettle};

    /// The book of a task before any event. Later calls take their memory from `alloc`.
    pub fn begin(alloc: Global, task: Arc<Task>) -> Result<Book, NoMemory>
        ensures { IfOk result (λ b. b ≡ first_parts (arc_value task)) }
    {
        let ledger = Ledger::opened(alloc, task)?;
        Ok(Book { ledger })
    }

    /// What is planned. The book keeps what `IsBook` says. Takes no memory.
    pub fn task(&self) -> &Arc<Task>
        ensures value { arc_value result.now ≡ self.now.task }
        ensures known { IsBook self.now }
    {
        self.ledger.task.task()
    }

    /// The task with the lists by which vectors are weighed. Takes no memory.
    pub fn listed_task(&self) -> &ListedTask
        ensures { result.now ≡ self.now.task }
    {
        &self.ledger.task
    }

    /// Whether the run is over. Takes no memory.
    pub fn is_done(&self) -> bool
        ensures { result ≡ (state_of self.now).done }
    {
        self.ledger.done
    }

    /// How many editions there are. Takes no memory.
    pub fn count(&self) -> u64
        ensures value { result ≡ length self.now.editions }
        ensures some { 0 < result }
    {
        self.ledger.editions.len() as u64
    }

    /// How many records there are, the leaf with them. Takes no memory.
    pub fn record_count(&self) -> u64
        ensures { result ≡ length (state_of self.now).records }
    {
        self.ledger.records
    }

    /// The latest edition. Takes no memory.
    pub fn latest(&self) -> &Arc<Edition>
        ensures { slice_get self.now.editions (length self.now.editions - 1) ≡ Some (arc_value result.now) }
    {
        &self.ledger.editions[self.ledger.editions.len() - 1]
    }

    /// The edition of a number, if there is one. Takes no memory.
    pub fn edition(&self, number: u64) -> Option<&Arc<Edition>>
        ensures { option_map (λ e. arc_value e.now) result ≡ slice_get self.now.editions number }
    {
        self.ledger.editions.get(number as usize)
    }

    /// The belief to back up next, picked by a word: the one at the word modulo their count among those that are neither improved
    /// nor taken, in the order of their numbers, which is then taken; where there is none, among all that aren't improved. Takes
    /// no memory.
    pub fn next_work(&mut self, word: u64) -> Option<u64>
        ensures answer { result ≡ cond (state_of self.old).done None (Some (picked (task_of self.old.task) (state_of self.old) (marks_of self.old.taken) word)) }
        ensures below { IfSome result (λ k. k < self.old.task.options.beliefs) }
        ensures taken { self.new ≡ cond (state_of self.old).done self.old (record self.old { taken = slice_set self.old.taken (picked (task_of self.old.task) (state_of self.old) (marks_of self.old.taken) word) true }) }
    {
        if self.ledger.done {
            return None;
        }
        let belief = pick(&self.ledger.improved, &self.ledger.taken, word);
        self.ledger.taken[belief] = true;
        Some(belief as u64)
    }

    /// Records a candidate, and publishes and ends the run where that is due then: one step of the book, or none. All memory is
    /// taken first.
    pub fn settle(&mut self, candidate: Candidate) -> Result<Settled, SettleError>
        ensures ok { IfOk result (λ answer. IsSettled self.old candidate answer self.new) }
        ensures err { IfErr result (RefusesSettle self.old candidate) }
        ensures unchanged { OnErr result (self.new ≡ self.old) }
    {
        self.ledger.settle(candidate)
    }

    /// `settle` for a candidate whose base is this book's edition of that number, as its latest edition is: nothing is compared.
    pub fn settle_ours(&mut self, candidate: Candidate) -> Result<Settled, SettleError>
        requires { IsOurs self.old candidate.base }
        ensures ok { IfOk result (λ answer. IsSettled self.old candidate answer self.new) }
        ensures err { IfErr result (RefusesSettle self.old candidate) }
        ensures unchanged { OnErr result (self.new ≡ self.old) }
    {
        self.ledger.settle_ours(candidate, None)
    }

    /// `settle_ours` for a candidate whose vector was weighed at the sampled beliefs before, by `sp_ledger::weigh`: it isn't weighed
    /// again.
    pub fn settle_weighed(
        &mut self,
        candidate: Candidate,
        worths: &[i128],
    ) -> Result<Settled, SettleError>
        requires ours { IsOurs self.old candidate.base }
        requires worths { AreSampledWorths self.old.task candidate.vector worths.now }
        ensures ok { IfOk result (λ answer. IsSettled self.old candidate answer self.new) }
        ensures err { IfErr result (RefusesSettle self.old candidate) }
        ensures unchanged { OnErr result (self.new ≡ self.old) }
    {
        self.ledger.settle_ours(candidate, Some(worths))
    }

    /// Of each pair of ids the first leaves the latest edition, in order, where both are still present: one step of the book, or
    /// none. All memory is taken first.
    pub fn prune(&mut self, base: &Arc<Edition>, pairs: &Pairs) -> Result<Pruned, PruneError>
        requires { AreDominatedIn (arc_value base.now) pairs.now }
        ensures ok { IfOk result (λ answer. IsPruned self.old (arc_value base.now) pairs.now answer self.new) }
        ensures err { IfErr result (RefusesPrune self.old (arc_value base.now)) }
        ensures unchanged { OnErr result (self.new ≡ self.old) }
    {
        self.ledger.prune(base, pairs)
    }

    /// `prune` where the base is this book's edition of that number, as its latest edition is: nothing is compared.
    pub fn prune_ours(&mut self, base: &Arc<Edition>, pairs: &Pairs) -> Result<Pruned, PruneError>
        requires ours { IsOurs self.old (arc_value base.now) }
        requires pairs { AreDominatedIn (arc_value base.now) pairs.now }
        ensures ok { IfOk result (λ answer. IsPruned self.old (arc_value base.now) pairs.now answer self.new) }
        ensures err { IfErr result (RefusesPrune self.old (arc_value base.now)) }
        ensures unchanged { OnErr result (self.new ≡ self.old) }
    {
        self.ledger.prune_ours(base, pairs)
    }

    /// The run, where it is over; else the book. Takes no memory.
    pub fn into_run(self) -> Result<Run, Book>
        ensures { MatchResult result (λ run. ((state_of self).done ≡ true) × (arc_value run.task ≡ self.task) × (events_of run.events ≡ self.history)) (λ book. ((state_of self).done ≡ false) × (book ≡ self)) }
    {
        if !self.ledger.done {
            return Err(self);
        }
        Ok(Run {
            task: self.ledger.task.into_task(),
            events: Sequence::from_vec(self.ledger.events),
        })
    }
}
