//! Beliefs from one to the next, and sampled beliefs.

ghost use Rattle.std.specs.Prelude.{◌≡◌, ◌<◌, length, IfOk, IfSome};
ghost use Rattle.sp_theory.specs.Points.{count_of};
ghost use Rattle.sp_model.specs.Problem.{sizes_of};

use crate::models::push_values;
use crate::numbers::number_at;
use crate::stopped::Stopped;
use sp_belief::{Carried, NextError, initial, next};
use sp_choose::{Chooser, Sweep, Uniform};
use sp_model::{Model, Sample, Weights};
use sp_sampler::sample;
use std::alloc::Global;

/// The total after an action and a joint observation, before it is scaled.
fn total_after(
    alloc: Global,
    model: &Model,
    weights: &Weights,
    action: u64,
    observation: u64,
) -> Result<u64, Stopped>
    requires scope { weights.now.shape ≡ model.now.scope }
    requires action { action < length model.now.actions }
    requires observation { observation < count_of (sizes_of model.now.sights) }
{
    let carried = Carried::new(alloc, model, weights, action)?;
    Ok(carried.total(alloc, observation)?)
}

/// Adds the line of an update, and gives the next weights, if the observation is seen.
fn step(
    text: &mut String,
    alloc: Global,
    model: &Model,
    weights: &Weights,
    action: u64,
    observation: u64,
) -> Result<Option<Weights>, Stopped>
    requires { weights.now.shape ≡ model.now.scope }
    ensures { IfOk result (λ o. IfSome o (λ v. v.shape ≡ model.now.scope)) }
{
    if action >= model.action_count() || observation >= model.joint_count() {
        return Err(Stopped);
    }
    let total = total_after(alloc, model, weights, action, observation)?;
    write!(text, "next {action} {observation} {total}:")?;
    match next(alloc, model, weights, action, observation) {
        Ok(next) => {
            push_values(text, alloc, model, next.func())?;
            Ok(Some(next))
        }
        Err(NextError::Unseen) => {
            text.push_str(" unseen\n")?;
            Ok(None)
        }
        Err(NextError::NoMemory) => Err(Stopped),
    }
}

/// Adds the lines of the initial weights, and of an update for each pair of an action and an observation, each from where the one
/// before it led.
fn follow(text: &mut String, alloc: Global, model: &Model, steps: &[u64]) -> Result<(), Stopped> {
    let mut weights = initial(alloc, model)?;
    text.push_str("initial:")?;
    push_values(text, alloc, model, weights.func())?;
    for place in 0..steps.len() / 2 {
        let action = number_at(steps, 2 * place)?;
        let observation = number_at(steps, 2 * place + 1)?;
        if let Some(next) = step(text, alloc, model, &weights, action, observation)? {
            weights = next;
        }
    }
    Ok(())
}

/// Which beliefs are sampled.
#[derive(Clone, Copy)]
struct Sampling {
    count: u64,
    depth: u64,
    seed: u64,
}

/// Adds the lines of the beliefs that are sampled by uniformly chosen actions.
fn uniform(text: &mut String, alloc: Global, model: &Model, plan: Sampling) -> Result<(), Stopped> {
    let chooser: Box<dyn Chooser + Send> = Box::new(alloc, Uniform)?;
    sampled(text, alloc, model, plan, chooser)
}

/// Adds the lines of the beliefs that are sampled by actions in turn.
fn sweep(text: &mut String, alloc: Global, model: &Model, plan: Sampling) -> Result<(), Stopped> {
    let chooser: Box<dyn Chooser + Send> = Box::new(alloc, Sweep::new())?;
    sampled(text, alloc, model, plan, chooser)
}

/// Adds a line for each sampled belief.
fn sampled(
    text: &mut String,
    alloc: Global,
    model: &Model,
    plan: Sampling,
    chooser: Box<dyn Chooser + Send>,
) -> Result<(), Stopped> {
    if plan.count == 0 || plan.count > 4096 || plan.depth == 0 || plan.depth > 4096 {
        return Err(Stopped);
    }
    let samples = sample(alloc, model, plan.count, plan.depth, plan.seed, chooser)?;
    for found in samples.list.as_slice() {
        push_sample(text, alloc, model, found)?;
    }
    Ok(())
}

/// Adds the line of a sampled belief.
fn push_sample(
    text: &mut String,
    alloc: Global,
    model: &Model,
    found: &Sample,
) -> Result<(), Stopped> {
    let (action, observation) = (found.action, found.observation);
    write!(text, "sample {action} {observation}:")?;
    push_values(text, alloc, model, found.weights.func())
}

/// Adds what a line of this kind asks for.
pub fn push_beliefs(
    text: &mut String,
    alloc: Global,
    model: &Model,
    kind: &str,
    numbers: &[u64],
) -> Result<(), Stopped> {
    match kind {
        "follow" => follow(text, alloc, model, numbers),
        "uniform" => uniform(text, alloc, model, sampling_of(numbers)?),
        "sweep" => sweep(text, alloc, model, sampling_of(numbers)?),
        _ => Err(Stopped),
    }
}

fn sampling_of(numbers: &[u64]) -> Result<Sampling, Stopped> {
    Ok(Sampling {
        count: number_at(numbers, 0)?,
        depth: number_at(numbers, 1)?,
        seed: number_at(numbers, 2)?,
    })
}
