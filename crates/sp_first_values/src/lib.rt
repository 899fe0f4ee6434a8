//! The values of editions at the initial belief.
//!
//! `specs/FirstValues.antt` says what they are.
#![tactic(auto)]

ghost use Rattle.std.specs.Prelude.{◌≡◌, ◌<ℤ◌, map, pos, IfOk};
ghost use Rattle.std.specs.Arc.{arc_value};
ghost use Rattle.sp_theory.specs.Scaling.{total_weight};
ghost use Rattle.sp_model.specs.Problem.{problem, shape_of};
ghost use Rattle.sp_model.specs.Links.{weights_of};
ghost use Rattle.sp_first_values.specs.FirstValues.{own_value};

use sp_dd::NoMemory;
use sp_model::functions::{constant, dot};
use sp_model::{Model, Weights};
use sp_value::{Edition, Values};
use std::alloc::Global;
use std::sync::Arc;

/// The value of each of some editions at belief 0, in ticks of 10^-9, rounded down.
pub fn first_values(alloc: Global, editions: &[Arc<Edition>]) -> Result<Values, NoMemory>
    ensures { IfOk result (λ values. values ≡ map own_value (map (λ e. arc_value e) editions.now)) }
{
    let mut values = Values::new(alloc);
    for k in 0..editions.len() {
        let value = first_value(alloc, &editions[k])?;
        values.push(value)?;
    }
    Ok(values)
}

/// The value of an edition at belief 0, in ticks of 10^-9, rounded down.
pub fn first_value(alloc: Global, edition: &Edition) -> Result<i128, NoMemory>
    ensures { IfOk result (λ z. z ≡ own_value edition.now) }
{
    // what is known of each edition
    let _ = edition.members();
    let task = edition.task();
    let weights = task.weights(0);
    let total = total_of(alloc, task.model(), weights)?;
    let (_, sum) = edition.greatest(alloc, weights)?;
    Ok(sum.div_euclid(total))
}

/// The total of weights.
fn total_of(alloc: Global, model: &Model, weights: &Weights) -> Result<i128, NoMemory>
    requires { weights.now.shape ≡ shape_of model.now }
    ensures some { IfOk result (λ z. pos 0 <ℤ z) }
    ensures value { IfOk result (λ z. z ≡ pos (total_weight (problem model.now) (weights_of model.now weights.now))) }
{
    // what is known of each model
    let _ = model.parts();
    let func = weights.func();
    let one = constant(alloc, func.scope(), 1)?;
    let total = dot(alloc, func, &one)?;
    Ok(total)
}
