//! One belief drawn from another.

ghost use Rattle.std.specs.Prelude.{◌≡◌, ◌<◌, ◌≤◌, sum, length, IfOk};
ghost use Rattle.sp_theory.specs.Points.{count_of};
ghost use Rattle.sp_theory.specs.Samples.{whole_total};
ghost use Rattle.sp_model.specs.Problem.{problem, sizes_of};
ghost use Rattle.sp_model.specs.Links.{weights_of};
ghost use Rattle.sp_belief.specs.Tables.{AreActionTables};
ghost use Rattle.sp_sampler.specs.Sampled.{IsDrawn, IsDrawnObservation};
ghost use Rattle.sp_sampler.specs.Tables.{AreKeptTables};
ghost use Rattle.sp_sampler.specs.Totals.{Exceeds};

use crate::tables::{KeptTables, prepare};
use sp_belief::{ActionTables, Carried, NextError};
use sp_dd::NoMemory;
use sp_model::{Model, Sample, Weights};
use std::alloc::Global;

/// The next belief after an action. The word draws the least joint observation at which the running total of the weights
/// before scaling exceeds the word modulo the sum of all these totals. The tables of the action are kept.
pub(crate) fn drawn(
    alloc: Global,
    model: &Model,
    kept: &mut KeptTables,
    weights: &Weights,
    action: u64,
    word: u64,
) -> Result<Sample, NoMemory>
    requires scope { weights.now.shape ≡ model.now.scope }
    requires kept { AreKeptTables model.now kept.old.items }
    requires action { action < length model.now.actions }
    ensures kept { IfOk result (λ x. AreKeptTables model.now kept.new.items) }
    ensures drawn { IfOk result (λ x. IsDrawn model.now weights.now action word x) }
{
    prepare(alloc, model, kept, action)?;
    match &kept[action as usize] {
        Some(tables) => drawn_by(alloc, model, tables, weights, word),
        None => unreachable!(),
    }
}

/// The next belief after the action of these tables.
fn drawn_by(
    alloc: Global,
    model: &Model,
    tables: &ActionTables,
    weights: &Weights,
    word: u64,
) -> Result<Sample, NoMemory>
    requires scope { weights.now.shape ≡ model.now.scope }
    requires tables { AreActionTables model.now tables.now }
    ensures { IfOk result (λ x. IsDrawn model.now weights.now tables.now.action word x) }
{
    let carried = Carried::by(alloc, model, tables, weights)?;
    let observation = observed(alloc, &carried, tables, word)?;
    match carried.next(alloc, observation) {
        Ok(weights) => Ok(Sample {
            action: tables.action,
            observation,
            weights,
        }),
        Err(NextError::NoMemory) => Err(NoMemory),
        Err(NextError::Unseen) => unreachable!(),
    }
}

/// The joint observation that a word draws.
fn observed(
    alloc: Global,
    carried: &Carried,
    tables: &ActionTables,
    word: u64,
) -> Result<u64, NoMemory>
    requires tables { AreActionTables carried.now.model.now tables.now }
    requires action { tables.now.action ≡ carried.now.action }
    ensures { IfOk result (λ o. IsDrawnObservation carried.now.model.now carried.now.weights.now carried.now.action word o) }
{
    let totals = carried.totals(alloc, tables)?;
    something_is_seen(carried);
    let totals = totals.as_slice();
    are_few(carried, totals);
    let target = word as u128 % sum_of(totals);
    Ok(first_above(totals, target))
}

/// There are as many totals as joint observations, so few.
fn are_few(carried: &Carried, totals: &[u64])
    requires { length totals.now ≡ count_of (sizes_of carried.now.model.now.sights) }
    ensures { length totals.now ≤ 4096 }
{
    let _ = carried.model.joint_count();
}

/// Some joint observation can be drawn: the totals before scaling don't sum to 0.
fn something_is_seen(carried: &Carried)
    ensures { 0 < whole_total (problem carried.now.model.now) (weights_of carried.now.model.now carried.now.weights.now) carried.now.action }
{
    // what is known of each model and of weights
    let _ = carried.model.parts();
    let _ = carried.weights.func();
}

/// The sum of some totals.
fn sum_of(totals: &[u64]) -> u128
    requires { length totals.now ≤ 4096 }
    ensures { result ≡ sum totals.now }
{
    let mut whole = 0;
    for total in totals {
        whole += *total as u128;
    }
    whole
}

/// The first place at which the running total, with it, exceeds a target.
fn first_above(totals: &[u64], target: u128) -> u64
    requires few { length totals.now ≤ 4096 }
    requires some { target < sum totals.now }
    ensures { Exceeds totals.now target result }
{
    let mut running = 0;
    for place in 0..totals.len() {
        running += totals[place] as u128;
        if target < running {
            return place as u64;
        }
    }
    unreachable!()
}
