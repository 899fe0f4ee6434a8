//! Judging the events of a run.

ghost use Rattle.std.specs.Prelude.{◌≡◌, ◌<◌, ◌+◌, ◌^◌, ℕ, false, true, length, get_or, IfOk, OnOk, MatchBool};
ghost use Rattle.sp_theory.specs.Book.{settle, publish, prune, end};
ghost use Rattle.sp_value.specs.Editions.{IsEdition};
ghost use Rattle.sp_value.specs.Tasks.{task_of};
ghost use Rattle.sp_value.specs.Events.{event_of};

use crate::clause::Clause;
use crate::pruning::left_of;
use crate::states::RunState;
use sp_backup::{Projections, point_backup};
use sp_dd::{Ids, NoMemory, Pairs};
use sp_ledger::{copies, shared_edition};
use sp_model::Sequence;
use sp_value::{Candidate, Edition, Event, Member};

/// Whether a candidate has this action and these links.
fn is_of(candidate: &Candidate, action: u64, links: &Ids) -> bool
    ensures { MatchBool result ((candidate.now.action ≡ action) × (candidate.now.links ≡ links.now)) (¬ ((candidate.now.action ≡ action) × (candidate.now.links ≡ links.now))) }
{
    candidate.action() == action && candidate.links().as_slice() == links.as_slice()
}

impl RunState {
    ghost use Rattle.sp_audit.specs.States.{contents, IsReplayState, edition_with, with_edition};
    ghost use Rattle.std.specs.Prelude.{[], ◌∷◌};
    ghost use Rattle.sp_faults.specs.RunFaults.{AreSettlesSampled};
    ghost use Rattle.sp_audit.specs.Judging.{IsEventJudged};

    /// A settle: on an edition that is there, with the backup at its belief on it.
    pub(crate) fn judge_settle(
        &mut self,
        belief: u64,
        base: u64,
        action: u64,
        links: &Ids,
        kept: &mut Projections,
    ) -> Result<Option<Clause>, NoMemory>
        requires replays { IsReplayState (contents self.old) }
        requires going { self.old.done ≡ false }
        requires sampled { belief < (contents self.old).task.options.beliefs }
        requires few { self.old.records + 1 < 2 ^ 64 }
        ensures { IfOk result (IsEventJudged (contents self.old) (settle belief base action links.now) (contents self.new)) }
    {
        let place = base as usize;
        if place >= self.editions.len() {
            return Ok(Some(Clause::Edition));
        }
        let candidate = point_backup(self.alloc, &self.editions[place], belief, kept)?;
        if !is_of(&candidate, action, links) {
            return Ok(Some(Clause::Backup));
        }
        self.settle(candidate)?;
        Ok(None)
    }

    /// A publication: all flags are up.
    pub(crate) fn judge_publish(&mut self) -> Result<Option<Clause>, NoMemory>
        requires replays { IsReplayState (contents self.old) }
        requires going { self.old.done ≡ false }
        ensures { IfOk result (IsEventJudged (contents self.old) publish (contents self.new)) }
    {
        if !are_all(&self.improved) {
            return Ok(Some(Clause::Publish));
        }
        self.publish()?;
        Ok(None)
    }

    /// A prune: at least one pair, and each may go in turn.
    pub(crate) fn judge_prune(&mut self, pairs: &Pairs) -> Result<Option<Clause>, NoMemory>
        requires replays { IsReplayState (contents self.old) }
        requires going { self.old.done ≡ false }
        ensures { IfOk result (IsEventJudged (contents self.old) (prune pairs.now) (contents self.new)) }
    {
        if pairs.len() == 0 {
            return Ok(Some(Clause::Prune));
        }
        let latest: &Edition = &self.editions[self.editions.len() - 1];
        let members = copies(self.alloc, latest.members().as_slice())?;
        match left_of(self.alloc, latest.task().model(), members, pairs)? {
            None => Ok(Some(Clause::Prune)),
            Some(left) => {
                self.put(left)?;
                Ok(None)
            }
        }
    }

    /// These members become the next edition.
    fn put(&mut self, members: Vec<Member>) -> Result<(), NoMemory>
        requires { IsEdition (edition_with (contents self.old) members.items) }
        ensures { OnOk result (contents self.new ≡ with_edition (contents self.old) (edition_with (contents self.old) members.items)) }
    {
        let number = self.editions.len() as u64;
        let edition = shared_edition(
            self.alloc,
            number,
            self.task.task(),
            Sequence::from_vec(members),
        )?;
        self.editions.reserve(1)?;
        self.editions.push_reserved(edition);
        Ok(())
    }

    /// Judges the next event, and takes it where nothing is wrong with it.
    pub(crate) fn judge(
        &mut self,
        event: &Event,
        kept: &mut Projections,
    ) -> Result<Option<Clause>, NoMemory>
        requires replays { IsReplayState (contents self.old) }
        requires sampled { AreSettlesSampled (task_of (contents self.old).task) (event_of event.now ∷ []) }
        requires few { self.old.records + 1 < 2 ^ 64 }
        ensures { IfOk result (IsEventJudged (contents self.old) (event_of event.now) (contents self.new)) }
    {
        if self.done {
            return Ok(Some(Clause::AfterEnd));
        }
        match event {
            Event::Settle {
                belief,
                base,
                action,
                links,
            } => self.judge_settle(*belief, *base, *action, links, kept),
            Event::Publish => self.judge_publish(),
            Event::Prune { pairs } => self.judge_prune(pairs),
            Event::End => Ok(self.judge_end()),
        }
    }

    /// The end: no stage is left.
    pub(crate) fn judge_end(&mut self) -> Option<Clause>
        requires replays { IsReplayState (contents self.old) }
        requires going { self.old.done ≡ false }
        ensures { IsEventJudged (contents self.old) end (contents self.new) result }
    {
        if self.stages_left > 0 {
            return Some(Clause::End);
        }
        self.end();
        None
    }
}

/// Whether all flags are up.
fn are_all(flags: &[bool]) -> bool
    ensures { MatchBool result ((k : ℕ) → k < length flags.now → get_or flags.now k false ≡ true) ((k : ℕ) × (k < length flags.now) × (get_or flags.now k false ≡ false)) }
{
    for k in 0..flags.len() {
        if !flags[k] {
            return false;
        }
    }
    true
}
