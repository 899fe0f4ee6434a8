//! One joint observation after another: what their first values share is thinned once.

ghost use Rattle.std.specs.Prelude.{◌≡◌, ◌<◌, ◌≤◌, ◌++◌, ◌∷◌, [], ℕ, pos, length, get_or, slice_index_or, IfOk, IfSome, IfNone, OnOk};
ghost use Rattle.std.specs.Bool.{OnTrue, OnFalse};
ghost use Rattle.sp_dd.specs.Func.{Everywhere};
ghost use Rattle.sp_theory.specs.Points.{count_of, point_of};
ghost use Rattle.sp_model.specs.Problem.{sizes_of};
ghost use Rattle.sp_belief.specs.Updates.{total_after};
ghost use Rattle.sp_belief.specs.Transfers.{AreWeightValues, IsOfNext};
ghost use Rattle.sp_belief.specs.Progress.{IsThinned};
ghost use Rattle.sp_belief.specs.Tables.{AreActionTables};
ghost use Rattle.sp_belief.specs.Paths.{IsPath, LeadsTo, HasNoWeight, IsUnscaled, IsZero, func_after, no_step};

use crate::carried::Carried;
use crate::scaling::total_of;
use crate::seeing::coordinate;
use crate::tables::ActionTables;
use sp_dd::NoMemory;
use sp_model::functions::{greatest, mul_floor, unprime};
use sp_model::{Func, Model};
use std::alloc::Global;

/// A value of an observation variable, and what carried weights are after it and the values before it.
#[derive(Drop)]
pub(crate) struct Step {
    pub value: u64,
    pub func: Func,
}

/// Carried weights, with the tables of their action.
#[derive(Drop)]
pub(crate) struct Walk<'a> {
    pub carried: &'a Carried<'a>,
    pub tables: &'a ActionTables,
    ghost tables_are: { AreActionTables carried.now.model.now tables.now },
    ghost same_action: { tables.now.action ≡ carried.now.action },
}

impl<'a> Walk<'a> {
    /// The total of the next weights before they are scaled. The path goes on to this joint observation.
    pub fn total(
        &self,
        alloc: Global,
        path: &mut Vec<Step>,
        observation: u64,
    ) -> Result<u64, NoMemory>
        requires path { IsPath self.now.carried.now.model.now self.now.carried.now.action self.now.carried.now.func path.old.items }
        requires observation { observation < count_of (sizes_of self.now.carried.now.model.now.sights) }
        ensures path { IfOk result (λ n. IsPath self.now.carried.now.model.now self.now.carried.now.action self.now.carried.now.func path.new.items) }
        ensures value { IfOk result (λ n. n ≡ total_after self.now.carried.now.model.now self.now.carried.now.weights.now self.now.carried.now.action observation) }
    {
        let _ = self.carried.model.parts();
        match self.unscaled(alloc, path, observation)? {
            Some(raw) => {
                let total = total_of(alloc, &raw)?;
                Ok(total)
            }
            None => Ok(0),
        }
    }

    /// The next weights before they are scaled, or `none` where they are all zero. The path goes on to this joint observation.
    pub fn unscaled_or(
        &self,
        alloc: Global,
        path: &mut Vec<Step>,
        observation: u64,
        none: &Func,
    ) -> Result<Func, NoMemory>
        requires path { IsPath self.now.carried.now.model.now self.now.carried.now.action self.now.carried.now.func path.old.items }
        requires observation { observation < count_of (sizes_of self.now.carried.now.model.now.sights) }
        requires none { IsZero self.now.carried.now.model.now none.now }
        ensures path { IfOk result (λ r. IsPath self.now.carried.now.model.now self.now.carried.now.action self.now.carried.now.func path.new.items) }
        ensures value { IfOk result (IsUnscaled self.now.carried.now.model.now self.now.carried.now.weights.now self.now.carried.now.action observation) }
    {
        let _ = self.carried.model.parts();
        let _ = self.carried.weights.func();
        match self.unscaled(alloc, path, observation)? {
            Some(raw) => Ok(raw),
            None => {
                let copy = none.copied(alloc)?;
                Ok(copy)
            }
        }
    }

    /// The next weights before they are scaled, if they aren't all zero. The path goes on to this joint observation.
    fn unscaled(
        &self,
        alloc: Global,
        path: &mut Vec<Step>,
        observation: u64,
    ) -> Result<Option<Func>, NoMemory>
        requires path { IsPath self.now.carried.now.model.now self.now.carried.now.action self.now.carried.now.func path.old.items }
        requires observation { observation < count_of (sizes_of self.now.carried.now.model.now.sights) }
        ensures path { IfOk result (λ o. IsPath self.now.carried.now.model.now self.now.carried.now.action self.now.carried.now.func path.new.items) }
        ensures some { IfOk result (λ o. IfSome o (IsUnscaled self.now.carried.now.model.now self.now.carried.now.weights.now self.now.carried.now.action observation)) }
        ensures none { IfOk result (λ o. IfNone o (HasNoWeight self.now.carried.now.model.now self.now.carried.now.weights.now self.now.carried.now.action observation)) }
    {
        let _ = self.carried.model.parts();
        let _ = self.carried.weights.func();
        if !self.reaches(alloc, path, observation)? {
            return Ok(None);
        }
        let raw = unprime(alloc, end(&self.carried.func, path.as_slice()))?;
        Ok(Some(raw))
    }

    /// Brings the path to a joint observation, or to where no weight is left. Answers whether some weight is left.
    fn reaches(
        &self,
        alloc: Global,
        path: &mut Vec<Step>,
        observation: u64,
    ) -> Result<bool, NoMemory>
        requires path { IsPath self.now.carried.now.model.now self.now.carried.now.action self.now.carried.now.func path.old.items }
        requires observation { observation < count_of (sizes_of self.now.carried.now.model.now.sights) }
        ensures path { IfOk result (λ b. IsPath self.now.carried.now.model.now self.now.carried.now.action self.now.carried.now.func path.new.items) }
        ensures yes { IfOk result (λ b. OnTrue b (LeadsTo self.now.carried.now.model.now path.new.items observation (length self.now.carried.now.model.now.sights))) }
        ensures no { IfOk result (λ b. OnFalse b (HasNoWeight self.now.carried.now.model.now self.now.carried.now.weights.now self.now.carried.now.action observation)) }
    {
        let model = self.carried.model;
        let _ = model.parts();
        let shared = self.shared(path, observation);
        path.truncate(shared as usize);
        for variable in shared..model.sight_count() {
            if is_zero(end(&self.carried.func, path.as_slice())) {
                return Ok(false);
            }
            let value = coordinate(model, observation, variable);
            let func = thin_by(
                alloc,
                model,
                self.tables,
                variable,
                value,
                end(&self.carried.func, path.as_slice()),
            )?;
            push_step(path, Step { value, func })?;
        }
        Ok(!is_zero(end(&self.carried.func, path.as_slice())))
    }

    /// How many of the first values of a joint observation stand on a path.
    fn shared(&self, path: &Vec<Step>, observation: u64) -> u64
        requires path { length path.now.items ≤ length self.now.carried.now.model.now.sights }
        requires observation { observation < count_of (sizes_of self.now.carried.now.model.now.sights) }
        ensures within { result ≤ length path.now.items }
        ensures same { (k : ℕ) → k < result → (slice_index_or path.now.items k no_step).value ≡ get_or (point_of (sizes_of self.now.carried.now.model.now.sights) observation) k 0 }
    {
        let model = self.carried.model;
        for k in 0..path.len() {
            if path[k].value != coordinate(model, observation, k as u64) {
                return k as u64;
            }
        }
        path.len() as u64
    }
}

/// What the weights at the beginning of a path are at its end.
fn end<'b>(start: &'b Func, path: &'b [Step]) -> &'b Func
    ensures { result.now ≡ func_after start.now path.now (length path.now) }
{
    if path.is_empty() {
        return start;
    }
    &path[path.len() - 1].func
}

/// Appends a step.
fn push_step(path: &mut Vec<Step>, step: Step) -> Result<(), NoMemory>
    ensures { OnOk result (path.new.items ≡ path.old.items ++ step ∷ []) }
{
    path.push(step).map_err(|_| NoMemory)?;
    Ok(())
}

/// Whether weights are zero at each state.
fn is_zero(f: &Func) -> bool
    requires { AreWeightValues f.now }
    ensures { OnTrue result (Everywhere f.now (λ v. v ≡ pos 0)) }
{
    greatest(f) == 0
}

/// Multiplies by the probability of a value of an observation variable, rounded down.
fn thin_by(
    alloc: Global,
    model: &Model,
    tables: &ActionTables,
    variable: u64,
    value: u64,
    f: &Func,
) -> Result<Func, NoMemory>
    requires tables { AreActionTables model.now tables.now }
    requires variable { variable < length model.now.sights }
    requires value { value < get_or (sizes_of model.now.sights) variable 0 }
    requires next { IsOfNext model.now f.now }
    requires small { AreWeightValues f.now }
    ensures { IfOk result (λ r. IsThinned model.now tables.now.action variable value f.now r) }
{
    let _ = model.parts();
    let made = mul_floor(alloc, tables.chance(variable, value), f)?;
    Ok(made)
}
