//! Backups by what actions promise at the weights: a vector is made only where promises don't tell.

ghost use Rattle.std.specs.Prelude.{◌≡◌, ◌<◌, ◌≤◌, ◌+◌, ◌*◌, ◌^◌, ◌+ℤ◌, length, unsigned_abs, if◌then◌else◌, IsSome, IfSome, IfOk};
ghost use Rattle.sp_theory.specs.Sums.{times, floor};
ghost use Rattle.sp_theory.specs.Draws.{q};
ghost use Rattle.sp_theory.specs.Values.{dot as theory_dot};
ghost use Rattle.sp_theory.specs.Backup.{choice};
ghost use Rattle.sp_bounds.specs.Bounds.{floored_reward};
ghost use Rattle.sp_model.specs.Problem.{problem, shape_of};
ghost use Rattle.sp_model.specs.Links.{weights_of};
ghost use Rattle.sp_value.specs.Editions.{members_in};
ghost use Rattle.sp_value.specs.Scores.{outdoes};
ghost use Rattle.sp_backup.specs.Preparing.{IsPrepared};
ghost use Rattle.sp_backup.specs.Promises.{IsPromisedAction};
ghost use Rattle.sp_backup.specs.Trials.{IsTrial, worth_of};

use crate::backups::{ActionVector, Trial, vector_for};
use crate::estimates::successors_of;
use crate::linking::links_of;
use crate::models::model_of;
use crate::preparing::PreparedAction;
use crate::projections::Kept;
use crate::setting::Setting;
use sp_dd::{Ids, NoMemory};
use sp_model::functions::dot;
use sp_model::{Model, Weights};
use sp_value::is_better;
use std::alloc::Global;

/// An action with the places of its links, what it promises at the weights, and its vector where that was made.
#[derive(Drop)]
pub(crate) struct PromisedAction {
    pub action: u64,
    pub places: Ids,
    pub promise: i128,
    pub made: Option<ActionVector>,
}

/// The trial of the greatest sum, of the least action at a tie.
pub(crate) fn pushed_trial(
    alloc: Global,
    setting: &Setting,
    kept: &mut Kept,
) -> Result<Trial, NoMemory>
    requires { kept.old ≡ setting.now.edition.now.task.model }
    ensures kept { kept.new ≡ kept.old }
    ensures trial { let e = setting.now.edition.now in let w = weights_of e.task.model setting.now.weights.now in IfOk result (λ t. IsTrial e w (choice (problem e.task.model) (members_in e) w) t) }
{
    let _ = setting.edition.members();
    let mut best = promised(alloc, setting, kept, 0)?;
    for action in 1..model_of(setting.edition).action_count() {
        let next = promised(alloc, setting, kept, action)?;
        best = better(alloc, setting, next, best)?;
    }
    trial_from(alloc, setting, best)
}

/// An action with its vector.
fn trial_from(alloc: Global, setting: &Setting, chosen: PromisedAction) -> Result<Trial, NoMemory>
    requires { let e = setting.now.edition.now in IsPromisedAction e (weights_of e.task.model setting.now.weights.now) chosen }
    ensures { let e = setting.now.edition.now in IfOk result (IsTrial e (weights_of e.task.model setting.now.weights.now) chosen.action) }
{
    let PromisedAction {
        action,
        places,
        promise: _,
        made,
    } = with_vector(alloc, setting, chosen)?;
    match made {
        Some(made) => Ok(Trial {
            action,
            places,
            vector: made.vector,
            sum: made.sum,
        }),
        None => unreachable!(),
    }
}

/// An action with its links and what it promises.
fn promised(
    alloc: Global,
    setting: &Setting,
    kept: &mut Kept,
    action: u64,
) -> Result<PromisedAction, NoMemory>
    requires kept { kept.old ≡ setting.now.edition.now.task.model }
    requires action { action < length setting.now.edition.now.task.model.actions }
    ensures kept { kept.new ≡ kept.old }
    ensures action { IfOk result (λ x. x.action ≡ action) }
    ensures is { let e = setting.now.edition.now in IfOk result (IsPromisedAction e (weights_of e.task.model setting.now.weights.now)) }
{
    let successors = successors_of(alloc, setting, kept, action)?;
    let reward = successors.reward;
    let found = links_of(alloc, setting, kept, &successors);
    kept.put_successors(setting.belief, successors);
    let found = found?;
    let promise = promise_of(model_of(setting.edition), reward, found.future);
    Ok(PromisedAction {
        action,
        places: found.places,
        promise,
        made: None,
    })
}

/// The action of the greater vector at the weights, of the lesser number at a tie. Where both promise nearly the same, their
/// vectors tell.
fn better(
    alloc: Global,
    setting: &Setting,
    next: PromisedAction,
    best: PromisedAction,
) -> Result<PromisedAction, NoMemory>
    requires next { let e = setting.now.edition.now in IsPromisedAction e (weights_of e.task.model setting.now.weights.now) next }
    requires best { let e = setting.now.edition.now in IsPromisedAction e (weights_of e.task.model setting.now.weights.now) best }
    ensures is { let e = setting.now.edition.now in IfOk result (IsPromisedAction e (weights_of e.task.model setting.now.weights.now)) }
    ensures chosen { let e = setting.now.edition.now in let w = weights_of e.task.model setting.now.weights.now in IfOk result (λ x. x.action ≡ (if outdoes (worth_of e w next.action) next.action (worth_of e w best.action) best.action then next.action else best.action)) }
{
    let _ = setting.edition.members();
    let _ = setting.weights.func();
    let window = setting.action_window();
    if next.promise + window < best.promise {
        return Ok(best);
    }
    if best.promise + window < next.promise {
        return Ok(next);
    }
    let next = with_vector(alloc, setting, next)?;
    let best = with_vector(alloc, setting, best)?;
    if is_better(sum_of(&next), next.action, sum_of(&best), best.action) {
        return Ok(next);
    }
    Ok(best)
}

/// An action with its vector, which is made where it wasn't.
fn with_vector(
    alloc: Global,
    setting: &Setting,
    chosen: PromisedAction,
) -> Result<PromisedAction, NoMemory>
    requires { let e = setting.now.edition.now in IsPromisedAction e (weights_of e.task.model setting.now.weights.now) chosen }
    ensures is { let e = setting.now.edition.now in IfOk result (IsPromisedAction e (weights_of e.task.model setting.now.weights.now)) }
    ensures action { IfOk result (λ x. x.action ≡ chosen.action) }
    ensures made { IfOk result (λ x. IsSome x.made) }
{
    if chosen.made.is_some() {
        return Ok(chosen);
    }
    let made = vector_for(alloc, setting, chosen.action, chosen.places.as_slice())?;
    Ok(PromisedAction {
        action: chosen.action,
        places: chosen.places,
        promise: chosen.promise,
        made: Some(made),
    })
}

/// The sum of an action's vector at the weights.
fn sum_of(chosen: &PromisedAction) -> i128
    requires { IsSome chosen.now.made }
    ensures { IfSome chosen.now.made (λ made. result ≡ made.sum) }
{
    match &chosen.made {
        Some(made) => made.sum,
        None => unreachable!(),
    }
}

/// The expected reward of a prepared action at weights.
pub(crate) fn reward_sum(
    alloc: Global,
    model: &Model,
    weights: &Weights,
    prepared: &PreparedAction,
) -> Result<i128, NoMemory>
    requires weights { weights.now.shape ≡ shape_of model.now }
    requires prepared { IsPrepared model.now prepared.now }
    ensures value { IfOk result (λ z. z ≡ theory_dot (problem model.now) (weights_of model.now weights.now) (floored_reward (problem model.now) prepared.now.tables.action)) }
    ensures small { IfOk result (λ z. unsigned_abs z ≤ 2 ^ 112) }
{
    let _ = model.parts();
    let sum = dot(alloc, weights.func(), &prepared.reward)?;
    Ok(sum)
}

/// What an action promises, from its reward and what its links bring.
fn promise_of(model: &Model, reward: i128, future: i128) -> i128
    requires reward { unsigned_abs reward ≤ 2 ^ 112 }
    requires future { unsigned_abs future ≤ 2 ^ 105 }
    ensures value { result ≡ floor reward q +ℤ times model.now.discount (floor future q) }
    ensures small { unsigned_abs result ≤ 2 ^ 108 }
{
    let now = reward.div_euclid(1_000_000_000);
    let later = future.div_euclid(1_000_000_000);
    now + model.discount() as i128 * later
}
