//! Judging the entries of a log.

ghost use Rattle.std.specs.Prelude.{◌≡◌, ◌<◌, false, length, map, IfOk};
ghost use Rattle.std.specs.Arc.{arc_value};
ghost use Rattle.sp_theory.specs.Points.{count_of};
ghost use Rattle.sp_theory.specs.Logs.{told, act, observe, unseen, closing};
ghost use Rattle.sp_model.specs.Problem.{problem, sizes_of};
ghost use Rattle.sp_session.specs.Logs.{entry_of};

use crate::clause::Clause;
use crate::seats::Seat;
use sp_dd::NoMemory;
use sp_model::Model;
use sp_session::Entry;
use sp_value::Edition;
use std::alloc::Global;
use std::sync::Arc;

impl Seat {
    ghost use Rattle.std.specs.Prelude.{[], ◌∷◌};
    ghost use Rattle.sp_faults.specs.LogFaults.{AreSeen};
    ghost use Rattle.sp_audit.specs.Seats.{AreOfModel, IsReplaySeat, editions_in};
    ghost use Rattle.sp_audit.specs.Entries.{IsEntryJudged};

    /// Judges the next entry, and takes it where nothing is wrong with it.
    pub(crate) fn judge(
        &mut self,
        alloc: Global,
        model: &Model,
        editions: &[Arc<Edition>],
        entry: &Entry,
    ) -> Result<Option<Clause>, NoMemory>
        requires editions { AreOfModel model.now (map (λ e. arc_value e) editions.now) }
        requires seat { IsReplaySeat model.now self.old }
        requires seen { AreSeen (problem model.now) (entry_of entry.now ∷ []) }
        ensures { IfOk result (IsEntryJudged model.now (editions_in (map (λ e. arc_value e) editions.now)) self.old (entry_of entry.now) self.new) }
    {
        if self.closed {
            return Ok(Some(Clause::Closing));
        }
        match *entry {
            Entry::Told(edition) => Ok(self.judge_told(model, editions, edition)),
            Entry::Act {
                edition,
                member,
                action,
            } => self.judge_act(alloc, model, editions, edition, member, action),
            Entry::Observe(observation) => self.judge_observe(alloc, model, editions, observation),
            Entry::Unseen(observation) => self.judge_unseen(alloc, model, editions, observation),
            Entry::Closing {
                edition,
                member,
                action,
            } => self.judge_closing(alloc, model, editions, edition, member, action),
        }
    }

    /// It was told of an edition that is there and not older.
    fn judge_told(
        &mut self,
        _model: &Model,
        editions: &[Arc<Edition>],
        edition: u64,
    ) -> Option<Clause>
        requires seat { IsReplaySeat _model.now self.old }
        requires going { self.old.closed ≡ false }
        ensures { IsEntryJudged _model.now (editions_in (map (λ e. arc_value e) editions.now)) self.old (told edition) self.new result }
    {
        if edition >= editions.len() as u64 {
            return Some(Clause::Edition);
        }
        if edition < self.newest {
            return Some(Clause::Older);
        }
        self.newest = edition;
        None
    }

    /// An answer.
    fn judge_act(
        &mut self,
        alloc: Global,
        model: &Model,
        editions: &[Arc<Edition>],
        edition: u64,
        member: u64,
        action: u64,
    ) -> Result<Option<Clause>, NoMemory>
        requires editions { AreOfModel model.now (map (λ e. arc_value e) editions.now) }
        requires seat { IsReplaySeat model.now self.old }
        requires going { self.old.closed ≡ false }
        ensures { IfOk result (IsEntryJudged model.now (editions_in (map (λ e. arc_value e) editions.now)) self.old (act edition member action) self.new) }
    {
        match self.judge_answer(alloc, model, editions, edition, member, action)? {
            Some(clause) => Ok(Some(clause)),
            None => {
                self.newest = edition;
                self.acted = Some(action);
                Ok(None)
            }
        }
    }

    /// A joint observation that is seen.
    fn judge_observe(
        &mut self,
        alloc: Global,
        model: &Model,
        _editions: &[Arc<Edition>],
        observation: u64,
    ) -> Result<Option<Clause>, NoMemory>
        requires seat { IsReplaySeat model.now self.old }
        requires going { self.old.closed ≡ false }
        requires observation { observation < count_of (sizes_of model.now.sights) }
        ensures { IfOk result (IsEntryJudged model.now (editions_in (map (λ e. arc_value e) _editions.now)) self.old (observe observation) self.new) }
    {
        match self.look(alloc, model, observation)? {
            None => Ok(Some(Clause::Belief)),
            Some(weights) => {
                self.weights = weights;
                self.acted = None;
                Ok(None)
            }
        }
    }

    /// A joint observation that is unseen, after an answer.
    fn judge_unseen(
        &mut self,
        alloc: Global,
        model: &Model,
        _editions: &[Arc<Edition>],
        observation: u64,
    ) -> Result<Option<Clause>, NoMemory>
        requires seat { IsReplaySeat model.now self.old }
        requires going { self.old.closed ≡ false }
        requires observation { observation < count_of (sizes_of model.now.sights) }
        ensures { IfOk result (IsEntryJudged model.now (editions_in (map (λ e. arc_value e) _editions.now)) self.old (unseen observation) self.new) }
    {
        if self.acted.is_none() {
            return Ok(Some(Clause::Belief));
        }
        let weights = self.look(alloc, model, observation)?;
        if weights.is_some() {
            return Ok(Some(Clause::Belief));
        }
        Ok(None)
    }

    /// The closing answer, on the last edition.
    fn judge_closing(
        &mut self,
        alloc: Global,
        model: &Model,
        editions: &[Arc<Edition>],
        edition: u64,
        member: u64,
        action: u64,
    ) -> Result<Option<Clause>, NoMemory>
        requires editions { AreOfModel model.now (map (λ e. arc_value e) editions.now) }
        requires seat { IsReplaySeat model.now self.old }
        requires going { self.old.closed ≡ false }
        ensures { IfOk result (IsEntryJudged model.now (editions_in (map (λ e. arc_value e) editions.now)) self.old (closing edition member action) self.new) }
    {
        let count = editions.len() as u64;
        if edition >= count {
            return Ok(Some(Clause::Closing));
        }
        if edition + 1 < count {
            return Ok(Some(Clause::Closing));
        }
        match self.judge_answer(alloc, model, editions, edition, member, action)? {
            Some(clause) => Ok(Some(clause)),
            None => {
                self.newest = edition;
                self.closed = true;
                Ok(None)
            }
        }
    }
}
