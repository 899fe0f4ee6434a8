//! What an action leads to.

ghost use Rattle.std.specs.Prelude.{◌≡◌, ◌<◌, ◌^◌, ◌≤ℤ◌, pos, length, IsTrue, IfOk};
ghost use Rattle.sp_dd.specs.Operations.{state_total};
ghost use Rattle.sp_theory.specs.Points.{count_of};
ghost use Rattle.sp_model.specs.Problem.{shape_of, sizes_of};
ghost use Rattle.sp_belief.specs.Transfers.{HasWeights};
ghost use Rattle.sp_belief.specs.Updates.{unscaled_after};
ghost use Rattle.sp_belief.specs.Paths.{IsUnscaled};
ghost use Rattle.sp_backup.specs.MemberTables.{IsNothingOr};
ghost use Rattle.sp_backup.specs.Preparing.{IsPrepared};
ghost use Rattle.sp_backup.specs.Posteriors.{IsPosterior, ArePosteriors, AreSuccessors, AreAlike};

use crate::estimates::ends_of;
use crate::preparing::{PreparedAction, prepared_of};
use crate::projections::Kept;
use crate::promises::reward_sum;
use sp_belief::Carried;
use sp_dd::NoMemory;
use sp_model::functions::greatest;
use sp_model::{Func, Model, Sequence, Weights};
use sp_states::SupportList;
use std::alloc::Global;

/// A joint observation after an action: the next weights before scaling, and whether all vectors between the least return and the
/// top have one estimate there, as where the observation is ruled out.
#[derive(Drop)]
pub(crate) struct Posterior {
    pub weights: Func,
    /// The states of weight, where they are few.
    pub list: Option<SupportList>,
    pub is_alike: bool,
}

pub(crate) type PosteriorList = Sequence<Posterior>;

/// How many nodes take as much memory as a posterior without its nodes.
const POSTERIOR: u64 = 16;

/// How many states of weight are summed as fast as a node at least.
const STATES: usize = 8;

/// What an action makes of weights: its expected reward there, and a posterior for each joint observation, by number.
#[derive(Drop)]
pub(crate) struct Successors {
    pub action: u64,
    pub weights: Func,
    pub reward: i128,
    pub posteriors: PosteriorList,
    /// Whether it was looked at whether all vectors have one estimate. One member alone doesn't need it.
    pub are_judged: bool,
}

impl Successors {
    /// What an action makes of weights.
    pub fn new(
        alloc: Global,
        kept: &mut Kept,
        model: &Model,
        weights: &Weights,
        action: u64,
        are_judged: bool,
    ) -> Result<Successors, NoMemory>
        requires kept { kept.old ≡ model.now }
        requires scope { weights.now.shape ≡ shape_of model.now }
        requires action { action < length model.now.actions }
        ensures kept { kept.new ≡ kept.old }
        ensures are { IfOk result (AreSuccessors model.now) }
        ensures action { IfOk result (λ x. x.action ≡ action) }
        ensures weights { IfOk result (λ x. x.weights ≡ weights.now) }
    {
        let prepared = prepared_of(alloc, kept, model, action)?;
        let made = Successors::by(alloc, kept, model, weights, &prepared, are_judged);
        kept.put_prepared(prepared);
        made
    }

    /// What a prepared action makes of weights.
    fn by(
        alloc: Global,
        kept: &mut Kept,
        model: &Model,
        weights: &Weights,
        prepared: &PreparedAction,
        are_judged: bool,
    ) -> Result<Successors, NoMemory>
        requires kept { kept.old ≡ model.now }
        requires scope { weights.now.shape ≡ shape_of model.now }
        requires prepared { IsPrepared model.now prepared.now }
        ensures kept { kept.new ≡ kept.old }
        ensures are { IfOk result (AreSuccessors model.now) }
        ensures action { IfOk result (λ x. x.action ≡ prepared.now.tables.action) }
        ensures weights { IfOk result (λ x. x.weights ≡ weights.now) }
    {
        let _ = model.parts();
        let action = prepared.tables.action;
        let reward = reward_sum(alloc, model, weights, prepared)?;
        let copy = weights.func().copied(alloc)?;
        let posteriors = posteriors_of(alloc, kept, model, weights, prepared, are_judged)?;
        Ok(Successors {
            action,
            weights: copy,
            reward,
            posteriors,
            are_judged,
        })
    }

    /// How many nodes the diagrams of the posteriors have, where each posterior counts as some nodes more.
    pub fn width(&self) -> u64 {
        let mut width: u64 = 0;
        for posterior in self.posteriors.as_slice() {
            width = width
                .saturating_add(posterior.weights.nodes().len() as u64)
                .saturating_add(POSTERIOR);
        }
        width
    }
}

/// The posteriors of an action.
fn posteriors_of(
    alloc: Global,
    kept: &mut Kept,
    model: &Model,
    weights: &Weights,
    prepared: &PreparedAction,
    are_judged: bool,
) -> Result<PosteriorList, NoMemory>
    requires kept { kept.old ≡ model.now }
    requires scope { weights.now.shape ≡ shape_of model.now }
    requires prepared { IsPrepared model.now prepared.now }
    ensures kept { kept.new ≡ kept.old }
    ensures are { IfOk result (ArePosteriors model.now weights.now prepared.now.tables.action (count_of (sizes_of model.now.sights))) }
{
    let _ = model.parts();
    let tables = &prepared.tables;
    let carried = Carried::by(alloc, model, tables, weights)?;
    let raws = carried.all_unscaled(alloc, tables)?;
    let mut made = PosteriorList::new(alloc);
    for joint in 0..model.joint_count() {
        let posterior = posterior_of(alloc, kept, &carried, joint, raws.at(joint), are_judged)?;
        made.push(posterior)?;
    }
    Ok(made)
}

/// The posterior of a joint observation with these weights.
fn posterior_of(
    alloc: Global,
    kept: &mut Kept,
    carried: &Carried,
    joint: u64,
    raw: &Func,
    is_judged: bool,
) -> Result<Posterior, NoMemory>
    requires kept { kept.old ≡ carried.now.model.now }
    requires joint { joint < count_of (sizes_of carried.now.model.now.sights) }
    requires raw { IsUnscaled carried.now.model.now carried.now.weights.now carried.now.action joint raw.now }
    ensures kept { kept.new ≡ kept.old }
    ensures is { IfOk result (IsPosterior carried.now.model.now carried.now.weights.now carried.now.action joint) }
{
    let _ = carried.model.parts();
    let is_alike = rules_out(alloc, kept, carried, joint, raw, is_judged)?;
    let list = list_of(alloc, carried, joint, raw)?;
    let weights = raw.copied(alloc)?;
    Ok(Posterior {
        weights,
        list,
        is_alike,
    })
}

/// The states of weight, where they aren't many more than the nodes of the diagram.
fn list_of(
    alloc: Global,
    carried: &Carried,
    joint: u64,
    weights: &Func,
) -> Result<Option<SupportList>, NoMemory>
    requires joint { joint < count_of (sizes_of carried.now.model.now.sights) }
    requires weights { HasWeights carried.now.model.now weights.now (unscaled_after carried.now.model.now carried.now.weights.now carried.now.action joint) }
    requires total { state_total weights.now ≤ℤ pos (2 ^ 62) }
    ensures { IfOk result (λ list. IsNothingOr list weights.now) }
{
    let _ = carried.model.parts();
    let room = weights
        .nodes()
        .len()
        .saturating_add(1)
        .saturating_mul(STATES);
    let list = SupportList::new(alloc, weights, room)?;
    Ok(list)
}

/// Whether a joint observation has no weight, and all vectors have one estimate there. No where that isn't judged.
fn rules_out(
    alloc: Global,
    kept: &mut Kept,
    carried: &Carried,
    joint: u64,
    weights: &Func,
    is_judged: bool,
) -> Result<bool, NoMemory>
    requires kept { kept.old ≡ carried.now.model.now }
    requires joint { joint < count_of (sizes_of carried.now.model.now.sights) }
    ensures kept { kept.new ≡ kept.old }
    ensures alike { IfOk result (λ b. IsTrue b → AreAlike carried.now.model.now carried.now.weights.now carried.now.action joint) }
{
    let _ = carried.model.parts();
    if !is_judged || greatest(weights) != 0 {
        return Ok(false);
    }
    let ends = ends_of(alloc, kept, carried.model, carried.action, joint)?;
    let alike = ends.are_alike(alloc, carried.model, carried.weights);
    kept.put_ends(ends);
    alike
}
