//! The least return and the top, as they are projected for an action and a joint observation.

ghost use Rattle.std.specs.Prelude.{◌≡◌, ◌<◌, ◌≤ℤ◌, ℤ, length, IsTrue, IfOk};
ghost use Rattle.sp_dd.specs.Operations.{everywhere};
ghost use Rattle.sp_theory.specs.Points.{count_of};
ghost use Rattle.sp_theory.specs.Model.{least_return, top};
ghost use Rattle.sp_model.specs.Problem.{problem, shape_of, sizes_of};
ghost use Rattle.sp_backup.specs.Posteriors.{AreAlike, constant_estimate};
ghost use Rattle.sp_backup.specs.Projections.{IsProjection, IsLastProjection, AreEnds};

use crate::projections::Projection;
use sp_dd::NoMemory;
use sp_model::functions::{constant, dot};
use sp_model::{Model, Weights};
use std::alloc::Global;

/// The projections of the least return and of the top for one action and one joint observation.
#[derive(Drop)]
pub(crate) struct Ends {
    pub low: Projection,
    pub high: Projection,
}

impl Ends {
    /// The ends for an action and a joint observation.
    pub fn new(alloc: Global, model: &Model, action: u64, joint: u64) -> Result<Ends, NoMemory>
        requires action { action < length model.now.actions }
        requires joint { joint < count_of (sizes_of model.now.sights) }
        ensures are { IfOk result (AreEnds model.now) }
        ensures action { IfOk result (λ x. x.low.action ≡ action) }
        ensures joint { IfOk result (λ x. x.low.joint ≡ joint) }
    {
        let _ = model.parts();
        let low = end_at(alloc, model, action, joint, model.least_return())?;
        let high = end_at(alloc, model, action, joint, model.top())?;
        Ok(Ends { low, high })
    }

    /// Whether both have one estimate at weights.
    pub fn are_alike(
        &self,
        alloc: Global,
        model: &Model,
        weights: &Weights,
    ) -> Result<bool, NoMemory>
        requires ends { AreEnds model.now self.now }
        requires scope { weights.now.shape ≡ shape_of model.now }
        ensures { IfOk result (λ b. IsTrue b → AreAlike model.now weights.now self.now.low.action self.now.low.joint) }
    {
        let _ = model.parts();
        let low = end_estimate(alloc, model, &self.low, weights)?;
        let high = end_estimate(alloc, model, &self.high, weights)?;
        Ok(low == high)
    }

    /// How many nodes the projections have.
    pub fn width(&self) -> u64 {
        let low = self.low.func.nodes().len() as u64;
        let high = self.high.func.nodes().len() as u64;
        low.saturating_add(high)
    }
}

/// The projection of the vector of one value.
fn end_at(
    alloc: Global,
    model: &Model,
    action: u64,
    joint: u64,
    value: i128,
) -> Result<Projection, NoMemory>
    requires action { action < length model.now.actions }
    requires joint { joint < count_of (sizes_of model.now.sights) }
    requires low { least_return (problem model.now) ≤ℤ value }
    requires high { value ≤ℤ top (problem model.now) }
    ensures { IfOk result (IsLastProjection model.now action joint value) }
{
    let _ = model.parts();
    let all = constant(alloc, model.scope(), value)?;
    let made = Projection::new(alloc, model, &all, action, joint)?;
    Ok(made)
}

/// The estimate of the vector of one value, from its projection.
fn end_estimate(
    alloc: Global,
    model: &Model,
    projection: &Projection,
    weights: &Weights,
) -> Result<i128, NoMemory>
    requires projection { IsProjection model.now projection.now }
    requires scope { weights.now.shape ≡ shape_of model.now }
    ensures { IfOk result (λ sum. (z : ℤ) → projection.now.vector ≡ everywhere model.now.scope z → least_return (problem model.now) ≤ℤ z → z ≤ℤ top (problem model.now)
        → sum ≡ constant_estimate model.now weights.now projection.now.action projection.now.joint z) }
{
    let _ = model.parts();
    let sum = dot(alloc, weights.func(), &projection.func)?;
    Ok(sum)
}
