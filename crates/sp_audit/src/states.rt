//! What an audit keeps of a run, and how each event changes it.

ghost use Rattle.std.specs.Prelude.{◌≡◌, ◌+◌, ◌<◌, ◌^◌, ℕ, false, true, Some, IfOk, OnOk, length, get_or, slice_get};
ghost use Rattle.std.specs.Arc.{arc_value};
ghost use Rattle.sp_theory.specs.Book.{opening, publish, end};
ghost use Rattle.sp_value.specs.Tasks.{task_of};
ghost use Rattle.sp_value.specs.Editions.{IsMemberOf};
ghost use Rattle.sp_value.specs.Candidates.{IsCandidate};
ghost use Rattle.sp_model.specs.Problem.{vector_of};
ghost use Rattle.sp_ledger.specs.Accounts.{AreWorths};

use sp_dd::NoMemory;
use sp_ledger::{
    Choice, ListedTask, choose, down_flags, first_edition, greatest_at, leaf_of, lift, one_edition,
    raise, shared_edition, weigh, worth, zero_values,
};
use sp_model::Sequence;
use sp_value::{Candidate, Edition, Member, Task};
use std::alloc::Global;
use std::mem;
use std::sync::Arc;

/// The book of a run after some of its events, as far as an audit needs it. Lists of flags and values have one for each sampled
/// belief, in the order of their numbers.
#[derive(Drop)]
pub(crate) struct RunState {
    pub(crate) alloc: Global,
    pub(crate) task: ListedTask,
    pub(crate) editions: Vec<Arc<Edition>>,
    /// How many records there are.
    pub(crate) records: u64,
    /// What has entered since the last publication.
    pub(crate) grown: Vec<Member>,
    /// Where something has entered that is at least as good as the latest edition.
    pub(crate) improved: Vec<bool>,
    /// The values of the latest edition, as sums of weights times ticks.
    pub(crate) latest_values: Vec<i128>,
    /// The values of the grown list, where it has a member.
    pub(crate) grown_values: Vec<i128>,
    /// Room for the worths of a vector.
    pub(crate) worths: Vec<i128>,
    pub(crate) stages_left: u64,
    pub(crate) done: bool,
}

impl RunState {
    ghost use Rattle.std.specs.Prelude.{[], ◌++◌, ◌∷◌};
    ghost use Rattle.sp_audit.specs.States.{contents, contents_with_record, with_member, contents_with_edition, grown_edition, contents_at_end, settle_of, IsStateAfter, IsReplayState, IsEntrant, Follows};

    /// No event.
    pub(crate) fn opened(alloc: Global, task: Arc<Task>) -> Result<RunState, NoMemory>
        ensures replay { IfOk result (λ r. IsStateAfter [] (contents r)) }
        ensures task { IfOk result (λ r. (contents r).task ≡ arc_value task) }
    {
        let _ = task.model().scope().slots();
        let beliefs = task.options().beliefs as usize;
        let stages_left = task.options().stages;
        let member = leaf_of(alloc, &task)?;
        let mut latest_values = zero_values(alloc, beliefs)?;
        let task = ListedTask::new(alloc, task)?;
        weigh(alloc, &task, &member.vector, latest_values.as_mut_slice())?;
        let edition = first_edition(alloc, task.task(), member)?;
        let improved = down_flags(alloc, beliefs)?;
        let grown_values = zero_values(alloc, beliefs)?;
        let worths = zero_values(alloc, beliefs)?;
        let editions = one_edition(alloc, edition)?;
        Ok(RunState {
            alloc,
            task,
            editions,
            records: 1,
            grown: Vec::new(alloc),
            improved,
            latest_values,
            grown_values,
            worths,
            stages_left,
            done: false,
        })
    }

    /// What enters the grown list with a candidate.
    fn entrant(&self, candidate: Candidate) -> Result<Option<Member>, NoMemory>
        requires replays { IsReplayState (contents self.now) }
        requires base { slice_get (contents self.now).editions candidate.base.number ≡ Some candidate.base }
        ensures known { OnOk result (IsCandidate candidate) }
        ensures entrant { IfOk result (IsEntrant (contents self.now) candidate) }
    {
        let belief = candidate.belief() as usize;
        let worth = worth(
            self.alloc,
            self.task.task(),
            candidate.belief(),
            candidate.vector(),
        )?;
        let choice = choose(
            self.improved[belief],
            self.latest_values[belief],
            self.grown_values[belief],
            worth,
        );
        match choice {
            Choice::Neither => Ok(None),
            Choice::New => {
                let action = candidate.action();
                let (_, _, vector) = candidate.open();
                Ok(Some(Member {
                    id: self.records,
                    action,
                    vector,
                }))
            }
            Choice::Old => {
                let latest = &self.editions[self.editions.len() - 1];
                let member = greatest_at(self.alloc, latest, candidate.belief())?;
                Ok(Some(member))
            }
        }
    }

    /// Takes a member into the grown list.
    fn enter(&mut self, member: Member) -> Result<(), NoMemory>
        requires member { IsMemberOf (contents self.old).task.model member }
        requires flags { length self.old.improved.items ≡ (contents self.old).task.options.beliefs }
        requires latest { length self.old.latest_values.items ≡ (contents self.old).task.options.beliefs }
        requires grown { length self.old.grown_values.items ≡ (contents self.old).task.options.beliefs }
        requires worths { length self.old.worths.items ≡ (contents self.old).task.options.beliefs }
        ensures worths { OnOk result (AreWorths (task_of (contents self.old).task) (vector_of (contents self.old).task.model member.vector) self.new.worths.items) }
        ensures count { length self.new.worths.items ≡ length self.old.worths.items }
        ensures changed { OnOk result (contents self.new ≡ with_member (record (contents self.old) { worths = self.new.worths.items }) member) }
    {
        weigh(
            self.alloc,
            &self.task,
            &member.vector,
            self.worths.as_mut_slice(),
        )?;
        let first = self.grown.is_empty();
        raise(
            self.improved.as_mut_slice(),
            &self.worths,
            &self.latest_values,
        );
        lift(first, self.grown_values.as_mut_slice(), &self.worths);
        self.grown.reserve(1)?;
        self.grown.push_reserved(member);
        Ok(())
    }

    /// A settle of this candidate.
    pub(crate) fn settle(&mut self, candidate: Candidate) -> Result<(), NoMemory>
        requires replays { IsReplayState (contents self.old) }
        requires going { self.old.done ≡ false }
        requires base { slice_get (contents self.old).editions candidate.base.number ≡ Some candidate.base }
        requires few { self.old.records + 1 < 2 ^ 64 }
        ensures { OnOk result (Follows (contents self.old) (settle_of candidate) (contents self.new)) }
    {
        let entrant = self.entrant(candidate)?;
        self.records += 1;
        match entrant {
            None => {}
            Some(member) => self.enter(member)?,
        }
        Ok(())
    }

    /// A publication: the grown list becomes the next edition.
    pub(crate) fn publish(&mut self) -> Result<(), NoMemory>
        requires replays { IsReplayState (contents self.old) }
        requires going { self.old.done ≡ false }
        requires up { (k : ℕ) → k < length self.old.improved.items → get_or self.old.improved.items k false ≡ true }
        ensures { OnOk result (Follows (contents self.old) publish (contents self.new)) }
    {
        let grown = mem::replace(&mut self.grown, Vec::new(self.alloc));
        let number = self.editions.len() as u64;
        let edition = shared_edition(
            self.alloc,
            number,
            self.task.task(),
            Sequence::from_vec(grown),
        )?;
        self.editions.reserve(1)?;
        self.editions.push_reserved(edition);
        self.improved.fill(false);
        mem::swap(&mut self.latest_values, &mut self.grown_values);
        self.stages_left = self.stages_left.saturating_sub(1);
        Ok(())
    }

    /// The end.
    pub(crate) fn end(&mut self)
        requires replays { IsReplayState (contents self.old) }
        requires going { self.old.done ≡ false }
        requires none { self.old.stages_left ≡ 0 }
        ensures { Follows (contents self.old) end (contents self.new) }
    {
        self.done = true;
    }
}
