//! Estimates of members.

ghost use Rattle.std.specs.Prelude.{◌≡◌, ◌<◌, length, IsTrue, IfOk};
ghost use Rattle.sp_theory.specs.Points.{count_of};
ghost use Rattle.sp_model.specs.Problem.{shape_of, sizes_of};
ghost use Rattle.sp_model.specs.Links.{weights_of};
ghost use Rattle.sp_value.specs.Editions.{IsVector};
ghost use Rattle.sp_backup.specs.Posteriors.{AreSuccessors, estimate_of};
ghost use Rattle.sp_backup.specs.Projections.{IsProjection, AreEnds};

use crate::ends::Ends;
use crate::models::model_of;
use crate::posteriors::Successors;
use crate::projections::{Kept, Projection};
use crate::setting::Setting;
use sp_dd::NoMemory;
use sp_model::Model;
use sp_model::functions::dot;
use sp_value::Member;
use std::alloc::Global;

/// The estimate of the member at a place after an action and a joint observation.
pub(crate) fn estimate(
    alloc: Global,
    setting: &Setting,
    kept: &mut Kept,
    action: u64,
    joint: u64,
    place: u64,
) -> Result<i128, NoMemory>
    requires kept { kept.old ≡ setting.now.edition.now.task.model }
    requires action { action < length setting.now.edition.now.task.model.actions }
    requires joint { joint < count_of (sizes_of setting.now.edition.now.task.model.sights) }
    requires place { place < length setting.now.edition.now.members }
    ensures kept { kept.new ≡ kept.old }
    ensures value { let e = setting.now.edition.now in IfOk result (λ z. z ≡ estimate_of e (weights_of e.task.model setting.now.weights.now) action joint place) }
{
    let member = setting.edition.members().at(place);
    let model = model_of(setting.edition);
    let projection = projection_of(alloc, kept, model, member, action, joint)?;
    let sum = dot(alloc, setting.weights.func(), &projection.func);
    kept.put_projection(member.id, projection);
    sum
}

/// The projection of a member, as it was kept or anew.
fn projection_of(
    alloc: Global,
    kept: &mut Kept,
    model: &Model,
    member: &Member,
    action: u64,
    joint: u64,
) -> Result<Projection, NoMemory>
    requires kept { kept.old ≡ model.now }
    requires action { action < length model.now.actions }
    requires joint { joint < count_of (sizes_of model.now.sights) }
    requires vector { IsVector model.now member.now.vector }
    ensures kept { kept.new ≡ kept.old }
    ensures is { IfOk result (IsProjection model.now) }
    ensures action { IfOk result (λ x. x.action ≡ action) }
    ensures joint { IfOk result (λ x. x.joint ≡ joint) }
    ensures vector { IfOk result (λ x. x.vector ≡ member.now.vector) }
{
    let _ = model.parts();
    if let Some(found) = kept.take_projection(member.id, action, joint) {
        if is_of(&found, member, action, joint) {
            return Ok(found);
        }
    }
    Projection::new(alloc, model, &member.vector, action, joint)
}

/// Whether a projection is that of a member.
fn is_of(found: &Projection, member: &Member, action: u64, joint: u64) -> bool
    requires { found.now.vector.shape ≡ member.now.vector.shape }
    ensures { IsTrue result → (found.now.action ≡ action) × (found.now.joint ≡ joint) × (found.now.vector ≡ member.now.vector) }
{
    found.action == action && found.joint == joint && found.vector.same(&member.vector)
}

/// The ends for an action and a joint observation, as they were kept or anew.
pub(crate) fn ends_of(
    alloc: Global,
    kept: &mut Kept,
    model: &Model,
    action: u64,
    joint: u64,
) -> Result<Ends, NoMemory>
    requires kept { kept.old ≡ model.now }
    requires action { action < length model.now.actions }
    requires joint { joint < count_of (sizes_of model.now.sights) }
    ensures kept { kept.new ≡ kept.old }
    ensures are { IfOk result (AreEnds model.now) }
    ensures action { IfOk result (λ x. x.low.action ≡ action) }
    ensures joint { IfOk result (λ x. x.low.joint ≡ joint) }
{
    if let Some(found) = kept.take_ends(action, joint) {
        if found.low.action == action && found.low.joint == joint {
            return Ok(found);
        }
    }
    Ends::new(alloc, model, action, joint)
}

/// What an action makes of the weights, as it was kept or anew.
pub(crate) fn successors_of(
    alloc: Global,
    setting: &Setting,
    kept: &mut Kept,
    action: u64,
) -> Result<Successors, NoMemory>
    requires kept { kept.old ≡ setting.now.edition.now.task.model }
    requires action { action < length setting.now.edition.now.task.model.actions }
    ensures kept { kept.new ≡ kept.old }
    ensures are { IfOk result (AreSuccessors setting.now.edition.now.task.model) }
    ensures action { IfOk result (λ x. x.action ≡ action) }
    ensures weights { IfOk result (λ x. x.weights ≡ setting.now.weights.now) }
{
    let are_judged = setting.edition.members().len() > 1;
    if let Some(found) = kept.take_successors(setting.belief, action) {
        if are_of(&found, setting, action, are_judged) {
            return Ok(found);
        }
    }
    Successors::new(
        alloc,
        kept,
        model_of(setting.edition),
        setting.weights,
        action,
        are_judged,
    )
}

/// Whether they are what an action makes of the weights, and judged where that is asked for.
fn are_of(found: &Successors, setting: &Setting, action: u64, are_judged: bool) -> bool
    requires { found.now.weights.shape ≡ shape_of setting.now.edition.now.task.model }
    ensures { IsTrue result → (found.now.action ≡ action) × (found.now.weights ≡ setting.now.weights.now) }
{
    if are_judged && !found.are_judged {
        return false;
    }
    found.action == action && found.weights.same(setting.weights.func())
}
