//! The links of an action, by the next weights before scaling.

ghost use Rattle.std.specs.Prelude.{◌≡◌, ◌<◌, ◌≤◌, ◌+◌, ◌*◌, ◌^◌, ◌+ℤ◌, length, unsigned_abs, if◌then◌else◌, IfOk};
ghost use Rattle.sp_theory.specs.Sums.{floor};
ghost use Rattle.sp_theory.specs.Draws.{q};
ghost use Rattle.sp_theory.specs.Points.{count_of, point_of};
ghost use Rattle.sp_model.specs.Problem.{sizes_of};
ghost use Rattle.sp_model.specs.Links.{weights_of};
ghost use Rattle.sp_value.specs.Scores.{outdoes};
ghost use Rattle.sp_backup.specs.Choosing.{IsLinkAt};
ghost use Rattle.sp_backup.specs.Posteriors.{IsPosterior, IsScoredMember, AreSuccessors, estimate_of, id_of};
ghost use Rattle.sp_backup.specs.Promises.{AreActionLinks};

use crate::estimates::estimate;
use crate::models::model_of;
use crate::posteriors::{Posterior, Successors};
use crate::projections::Kept;
use crate::setting::Setting;
use crate::values::listed_dot;
use sp_dd::{Ids, NoMemory};
use sp_value::is_better;
use std::alloc::Global;

/// The place of a member, with its sum at the next weights before scaling, and its estimate where that was made.
#[derive(Clone, Copy)]
pub(crate) struct ScoredMember {
    pub place: u64,
    pub sum: i128,
    pub estimate: Option<i128>,
}

/// The search for the link of a joint observation.
#[derive(Drop)]
pub(crate) struct LinkSearch<'a> {
    pub setting: &'a Setting<'a>,
    pub action: u64,
    pub joint: u64,
    pub posterior: &'a Posterior,
    ghost action_known: { action < length setting.now.edition.now.task.model.actions },
    ghost joint_known: { joint < count_of (sizes_of setting.now.edition.now.task.model.sights) },
    ghost posterior_is: { IsPosterior setting.now.edition.now.task.model setting.now.weights.now action joint posterior.now },
}

impl<'a> LinkSearch<'a> {
    /// The member at a place, with its sum.
    fn scored(&self, alloc: Global, place: u64) -> Result<ScoredMember, NoMemory>
        requires { place < length self.now.setting.now.edition.now.members }
        ensures place { IfOk result (λ x. x.place ≡ place) }
        ensures is { let e = self.now.setting.now.edition.now in IfOk result (IsScoredMember e (weights_of e.task.model self.now.setting.now.weights.now) self.now.action self.now.joint) }
    {
        let _ = self.setting.edition.members();
        let member = self.setting.tables.at(place);
        let sum = listed_dot(alloc, &self.posterior.weights, &self.posterior.list, member)?;
        Ok(ScoredMember {
            place,
            sum,
            estimate: None,
        })
    }

    /// The estimate of a member, which is made where it wasn't.
    fn estimate(
        &self,
        alloc: Global,
        kept: &mut Kept,
        member: ScoredMember,
    ) -> Result<i128, NoMemory>
        requires kept { kept.old ≡ self.now.setting.now.edition.now.task.model }
        requires member { let e = self.now.setting.now.edition.now in IsScoredMember e (weights_of e.task.model self.now.setting.now.weights.now) self.now.action self.now.joint member }
        ensures kept { kept.new ≡ kept.old }
        ensures value { let e = self.now.setting.now.edition.now in IfOk result (λ z. z ≡ estimate_of e (weights_of e.task.model self.now.setting.now.weights.now) self.now.action self.now.joint member.place) }
    {
        if let Some(known) = member.estimate {
            return Ok(known);
        }
        estimate(
            alloc,
            self.setting,
            kept,
            self.action,
            self.joint,
            member.place,
        )
    }

    /// The better link of two members. Where both bring nearly the same, their estimates tell.
    fn better(
        &self,
        alloc: Global,
        kept: &mut Kept,
        next: ScoredMember,
        best: ScoredMember,
    ) -> Result<ScoredMember, NoMemory>
        requires kept { kept.old ≡ self.now.setting.now.edition.now.task.model }
        requires next { let e = self.now.setting.now.edition.now in IsScoredMember e (weights_of e.task.model self.now.setting.now.weights.now) self.now.action self.now.joint next }
        requires best { let e = self.now.setting.now.edition.now in IsScoredMember e (weights_of e.task.model self.now.setting.now.weights.now) self.now.action self.now.joint best }
        ensures kept { kept.new ≡ kept.old }
        ensures is { let e = self.now.setting.now.edition.now in IfOk result (IsScoredMember e (weights_of e.task.model self.now.setting.now.weights.now) self.now.action self.now.joint) }
        ensures chosen { let e = self.now.setting.now.edition.now in let w = weights_of e.task.model self.now.setting.now.weights.now in IfOk result (λ x. x.place ≡ (if outdoes (estimate_of e w self.now.action self.now.joint next.place) (id_of e next.place) (estimate_of e w self.now.action self.now.joint best.place) (id_of e best.place) then next.place else best.place)) }
    {
        let _ = self.setting.edition.members();
        let _ = self.setting.weights.func();
        let window = self.setting.link_window();
        if next.sum + window < best.sum {
            return Ok(best);
        }
        if best.sum + window < next.sum {
            return Ok(next);
        }
        let new = self.estimate(alloc, kept, next)?;
        let old = self.estimate(alloc, kept, best)?;
        Ok(self.better_estimated(next, new, best, old))
    }

    /// The better link of two members with these estimates.
    fn better_estimated(
        &self,
        next: ScoredMember,
        new: i128,
        best: ScoredMember,
        old: i128,
    ) -> ScoredMember
        requires next { let e = self.now.setting.now.edition.now in IsScoredMember e (weights_of e.task.model self.now.setting.now.weights.now) self.now.action self.now.joint next }
        requires best { let e = self.now.setting.now.edition.now in IsScoredMember e (weights_of e.task.model self.now.setting.now.weights.now) self.now.action self.now.joint best }
        requires new { let e = self.now.setting.now.edition.now in new ≡ estimate_of e (weights_of e.task.model self.now.setting.now.weights.now) self.now.action self.now.joint next.place }
        requires old { let e = self.now.setting.now.edition.now in old ≡ estimate_of e (weights_of e.task.model self.now.setting.now.weights.now) self.now.action self.now.joint best.place }
        ensures is { let e = self.now.setting.now.edition.now in IsScoredMember e (weights_of e.task.model self.now.setting.now.weights.now) self.now.action self.now.joint result }
        ensures chosen { let e = self.now.setting.now.edition.now in result.place ≡ (if outdoes new (id_of e next.place) old (id_of e best.place) then next.place else best.place) }
    {
        let members = self.setting.edition.members();
        if is_better(
            new,
            members.at(next.place).id,
            old,
            members.at(best.place).id,
        ) {
            return ScoredMember {
                place: next.place,
                sum: next.sum,
                estimate: Some(new),
            };
        }
        ScoredMember {
            place: best.place,
            sum: best.sum,
            estimate: Some(old),
        }
    }

    /// The member that brings the most by its estimate, of the least id at a tie.
    fn link(&self, alloc: Global, kept: &mut Kept) -> Result<ScoredMember, NoMemory>
        requires { kept.old ≡ self.now.setting.now.edition.now.task.model }
        ensures kept { kept.new ≡ kept.old }
        ensures link { let e = self.now.setting.now.edition.now in IfOk result (λ x. IsLinkAt e (weights_of e.task.model self.now.setting.now.weights.now) self.now.action (point_of (sizes_of e.task.model.sights) self.now.joint) x.place) }
        ensures scored { let e = self.now.setting.now.edition.now in IfOk result (IsScoredMember e (weights_of e.task.model self.now.setting.now.weights.now) self.now.action self.now.joint) }
    {
        let members = self.setting.edition.members();
        if self.posterior.is_alike {
            let first = self.scored(alloc, self.setting.first)?;
            return Ok(first);
        }
        let mut best = self.scored(alloc, 0)?;
        for k in 1..members.len() {
            let next = self.scored(alloc, k)?;
            best = self.better(alloc, kept, next, best)?;
        }
        Ok(best)
    }
}

/// The places of the links of an action, in the order of the joint observations' numbers, and what they bring together.
#[derive(Drop)]
pub(crate) struct ActionLinks {
    pub places: Ids,
    pub future: i128,
}

/// The links of an action.
pub(crate) fn links_of(
    alloc: Global,
    setting: &Setting,
    kept: &mut Kept,
    successors: &Successors,
) -> Result<ActionLinks, NoMemory>
    requires kept { kept.old ≡ setting.now.edition.now.task.model }
    requires successors { AreSuccessors setting.now.edition.now.task.model successors.now }
    requires weights { successors.now.weights ≡ setting.now.weights.now }
    ensures kept { kept.new ≡ kept.old }
    ensures links { let e = setting.now.edition.now in IfOk result (AreActionLinks e (weights_of e.task.model setting.now.weights.now) successors.now.action (count_of (sizes_of e.task.model.sights))) }
{
    let mut places = Ids::new(alloc);
    let mut future = 0;
    for joint in 0..model_of(setting.edition).joint_count() {
        let link = link_at(alloc, setting, kept, successors, joint)?;
        places.push(link.place)?;
        future = with_share(future, link.sum, joint);
    }
    Ok(ActionLinks { places, future })
}

/// The link of a joint observation.
fn link_at(
    alloc: Global,
    setting: &Setting,
    kept: &mut Kept,
    successors: &Successors,
    joint: u64,
) -> Result<ScoredMember, NoMemory>
    requires kept { kept.old ≡ setting.now.edition.now.task.model }
    requires successors { AreSuccessors setting.now.edition.now.task.model successors.now }
    requires weights { successors.now.weights ≡ setting.now.weights.now }
    requires joint { joint < count_of (sizes_of setting.now.edition.now.task.model.sights) }
    ensures kept { kept.new ≡ kept.old }
    ensures link { let e = setting.now.edition.now in IfOk result (λ x. IsLinkAt e (weights_of e.task.model setting.now.weights.now) successors.now.action (point_of (sizes_of e.task.model.sights) joint) x.place) }
    ensures scored { let e = setting.now.edition.now in IfOk result (IsScoredMember e (weights_of e.task.model setting.now.weights.now) successors.now.action joint) }
{
    let search = LinkSearch {
        setting,
        action: successors.action,
        joint,
        posterior: successors.posteriors.at(joint),
    };
    search.link(alloc, kept)
}

/// A future with the share of one more link.
fn with_share(future: i128, sum: i128, joint: u64) -> i128
    requires joint { joint < 4096 }
    requires future { unsigned_abs future ≤ joint * 2 ^ 93 }
    requires sum { unsigned_abs sum ≤ 2 ^ 122 }
    ensures value { result ≡ future +ℤ floor sum q }
    ensures small { unsigned_abs result ≤ (joint + 1) * 2 ^ 93 }
{
    let share = sum.div_euclid(1_000_000_000);
    future + share
}
