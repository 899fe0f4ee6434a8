//! Settling candidates.

ghost use Rattle.std.specs.Prelude.{◌≡◌, ◌≢◌, ◌↔◌, ◌∷◌, ◌++◌, [], false, Some, IfSome, IsTrue, IfOk, IfErr, OnOk, OnErr, length, option_map, slice_get, All, AllPairs};
ghost use Rattle.std.specs.Arc.{arc_value};
ghost use Rattle.sp_theory.specs.Values as values;
ghost use Rattle.sp_model.specs.Problem.{problem, vector_of};
ghost use Rattle.sp_value.specs.Tasks.{IsTask, weights_at};
ghost use Rattle.sp_value.specs.Editions.{IsMemberOf, IsVector};
ghost use Rattle.sp_value.specs.Candidates.{IsCandidate};

use crate::answers::{SettleError, Settled};
use crate::ledger::Ledger;
use crate::plans::Plan;
use sp_dd::NoMemory;
use sp_ledger::{
    Choice, are_all_raised, choose, greatest_at, shared_edition, weigh, with_one_more, worth,
};
use sp_model::Func;
use sp_value::{Candidate, Edition, Event, Member};
use std::sync::Arc;

impl Ledger {
    ghost use Rattle.sp_core.specs.Ledgers.{contents, parts_in, IsLedger};
    ghost use Rattle.sp_core.specs.Settling.{AreSampledWorths, IsOurs, IsSettled, RefusesSettle};
    ghost use Rattle.sp_core.specs.Plans.{HasRoom, IsEntry, IsSettlePlan, after_plan, answer_to};

    /// Whether the edition is one of this book's.
    pub(crate) fn has(&self, edition: &Edition) -> bool
        ensures { IsTrue result ↔ IsOurs (parts_in (contents self.now)) edition.now }
    {
        let number = edition.number() as usize;
        number < self.editions.len() && self.editions[number].same(edition)
    }

    /// This book's edition of that number, if there is one.
    pub(crate) fn kept(&self, number: u64) -> Result<Option<Arc<Edition>>, NoMemory>
        ensures { IfOk result (λ kept. option_map (λ e. arc_value e) kept ≡ slice_get (contents self.now).editions number) }
    {
        let number = number as usize;
        if number >= self.editions.len() {
            return Ok(None);
        }
        let kept = Arc::try_clone(&self.editions[number])?;
        Ok(Some(kept))
    }

    /// Room for all events of a settle, a grown member and an edition.
    fn make_room(&mut self) -> Result<(), NoMemory>
        ensures same { contents self.new ≡ contents self.old }
        ensures room { OnOk result (HasRoom self.new) }
    {
        self.events.reserve(3)?;
        self.grown.reserve(1)?;
        self.editions.reserve(1)?;
        Ok(())
    }

    /// Makes ready what the candidate will do, as its belief chooses. Its vector isn't weighed where its worths are given.
    fn prepare(&mut self, candidate: &Candidate, weighed: Option<&[i128]>) -> Result<Plan, NoMemory>
        requires ledger { IsLedger (contents self.old) }
        requires going { self.old.done ≡ false }
        requires ours { IsOurs (parts_in (contents self.old)) candidate.now.base }
        requires weighed { IfSome weighed (λ w. AreSampledWorths (contents self.old).task candidate.now.vector w.now) }
        ensures same { contents self.new ≡ record (contents self.old) { worths = self.new.worths.items } }
        ensures count { length self.new.worths.items ≡ length self.old.worths.items }
        ensures plan { IfOk result (λ plan. IsSettlePlan (contents self.new) candidate.now plan) }
        ensures room { OnOk result (HasRoom self.new) }
    {
        self.make_room()?;
        let belief = candidate.belief() as usize;
        let vector = candidate.vector();
        let worth = self.worth_of(candidate, weighed)?;
        let choice = choose(
            self.improved[belief],
            self.latest_values[belief],
            self.grown_values[belief],
            worth,
        );
        match choice {
            Choice::Neither => Ok(Plan::RecordOnly),
            Choice::New => {
                let next = self.due(self.records, candidate.action(), vector, weighed)?;
                Ok(Plan::EnterNew(next))
            }
            Choice::Old => {
                let latest = &self.editions[self.editions.len() - 1];
                let member = greatest_at(self.alloc, latest, candidate.belief())?;
                let next = self.due(member.id, member.action, &member.vector, None)?;
                Ok(Plan::EnterOld(member, next))
            }
        }
    }

    /// The worth of a candidate's vector at its belief.
    fn worth_of(&self, candidate: &Candidate, weighed: Option<&[i128]>) -> Result<i128, NoMemory>
        requires ledger { IsLedger (contents self.now) }
        requires ours { IsOurs (parts_in (contents self.now)) candidate.now.base }
        requires weighed { IfSome weighed (λ w. AreSampledWorths (contents self.now).task candidate.now.vector w.now) }
        ensures { IfOk result (λ z. z ≡ values.dot (problem (contents self.now).task.model) (weights_at (contents self.now).task candidate.now.belief) (vector_of (contents self.now).task.model candidate.now.vector)) }
    {
        let (belief, vector) = (candidate.belief(), candidate.vector());
        match weighed {
            Some(worths) => Ok(worths[belief as usize]),
            None => {
                let worth = worth(self.alloc, self.task.task(), belief, vector)?;
                Ok(worth)
            }
        }
    }

    /// Brings the worths of a vector to hand: those that are given, or those that are made here.
    fn take_worths(&mut self, vector: &Func, weighed: Option<&[i128]>) -> Result<(), NoMemory>
        requires ledger { IsLedger (contents self.old) }
        requires vector { IsVector (contents self.old).task.model vector.now }
        requires weighed { IfSome weighed (λ w. AreSampledWorths (contents self.old).task vector.now w.now) }
        ensures same { contents self.new ≡ record (contents self.old) { worths = self.new.worths.items } }
        ensures count { length self.new.worths.items ≡ length self.old.worths.items }
        ensures worths { OnOk result (AreSampledWorths (contents self.new).task vector.now self.new.worths.items) }
        ensures room { HasRoom self.old → HasRoom self.new }
    {
        match weighed {
            Some(worths) => self.worths.as_mut_slice().copy_from_slice(worths),
            None => weigh(self.alloc, &self.task, vector, self.worths.as_mut_slice())?,
        }
        Ok(())
    }

    /// Weighs a member that will enter, where its worths aren't given, and makes the edition that is due then.
    fn due(
        &mut self,
        id: u64,
        action: u64,
        vector: &Func,
        weighed: Option<&[i128]>,
    ) -> Result<Option<Arc<Edition>>, NoMemory>
        requires ledger { IsLedger (contents self.old) }
        requires member { IsMemberOf (contents self.old).task.model (record { id = id; action = action; vector = vector.now }) }
        requires different { AllPairs (λ x y. x.id ≢ y.id) (self.old.grown.items ++ (record { id = id; action = action; vector = vector.now }) ∷ []) }
        requires room { HasRoom self.old }
        requires weighed { IfSome weighed (λ w. AreSampledWorths (contents self.old).task vector.now w.now) }
        ensures same { contents self.new ≡ record (contents self.old) { worths = self.new.worths.items } }
        ensures count { length self.new.worths.items ≡ length self.old.worths.items }
        ensures entry { IfOk result (λ next. IsEntry (contents self.new) (record { id = id; action = action; vector = vector.now }) (option_map (λ e. arc_value e) next)) }
        ensures room { HasRoom self.new }
    {
        self.take_worths(vector, weighed)?;
        if !are_all_raised(&self.improved, &self.worths, &self.latest_values) {
            return Ok(None);
        }
        let members = with_one_more(self.alloc, &self.grown, id, action, vector)?;
        let number = self.editions.len() as u64;
        let edition = shared_edition(self.alloc, number, self.task.task(), members)?;
        Ok(Some(edition))
    }

    /// Does what was made ready.
    fn commit(&mut self, candidate: Candidate, plan: Plan) -> Settled
        requires ledger { IsLedger (contents self.old) }
        requires room { HasRoom self.old }
        ensures changed { contents self.new ≡ after_plan (contents self.old) candidate plan }
        ensures answer { result ≡ answer_to (contents self.old) plan }
    {
        let id = self.records;
        let belief = candidate.belief();
        let base = candidate.base().number();
        let action = candidate.action();
        let (_, links, vector) = candidate.open();
        self.records += 1;
        self.events.push_reserved(Event::Settle {
            belief,
            base,
            action,
            links,
        });
        match plan {
            Plan::RecordOnly => Settled::Late,
            Plan::EnterNew(next) => {
                self.enter(Member { id, action, vector }, next);
                Settled::Added(id)
            }
            Plan::EnterOld(member, next) => {
                let kept = member.id;
                self.enter(member, next);
                Settled::Kept(kept)
            }
        }
    }

    /// One step of the book, or none, for a candidate on an edition of this book, whose worths may be given.
    pub(crate) fn settle_ours(
        &mut self,
        candidate: Candidate,
        weighed: Option<&[i128]>,
    ) -> Result<Settled, SettleError>
        requires ledger { IsLedger (contents self.old) }
        requires ours { IsOurs (parts_in (contents self.old)) candidate.base }
        requires weighed { IfSome weighed (λ w. AreSampledWorths (contents self.old).task candidate.vector w.now) }
        ensures ledger { IsLedger (contents self.new) }
        ensures ok { IfOk result (λ answer. IsSettled (parts_in (contents self.old)) candidate answer (parts_in (contents self.new))) }
        ensures err { IfErr result (RefusesSettle (parts_in (contents self.old)) candidate) }
        ensures unchanged { OnErr result (parts_in (contents self.new) ≡ parts_in (contents self.old)) }
    {
        if self.done {
            return Ok(Settled::Over);
        }
        match self.prepare(&candidate, weighed) {
            Ok(plan) => Ok(self.commit(candidate, plan)),
            Err(_) => Err(SettleError::NoMemory { candidate }),
        }
    }

    /// One step of the book, or none.
    pub(crate) fn settle(&mut self, candidate: Candidate) -> Result<Settled, SettleError>
        requires { IsLedger (contents self.old) }
        ensures ledger { IsLedger (contents self.new) }
        ensures ok { IfOk result (λ answer. IsSettled (parts_in (contents self.old)) candidate answer (parts_in (contents self.new))) }
        ensures err { IfErr result (RefusesSettle (parts_in (contents self.old)) candidate) }
        ensures unchanged { OnErr result (parts_in (contents self.new) ≡ parts_in (contents self.old)) }
    {
        if self.done {
            return Ok(Settled::Over);
        }
        if !self.has(candidate.base()) {
            return Err(match self.kept(candidate.base().number()) {
                Ok(kept) => SettleError::NotOurs { candidate, kept },
                Err(_) => SettleError::NoMemory { candidate },
            });
        }
        self.settle_ours(candidate, None)
    }
}
