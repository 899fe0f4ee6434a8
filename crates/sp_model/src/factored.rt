//! Models, and what their type keeps.

ghost use Rattle.std.specs.Prelude.{◌≡◌, ◌↔◌, ◌*◌, ◌^◌, ◌<◌, ◌≤◌, Some, length, slice_get, slice_index_or, unsigned_abs, IsTrue};
ghost use Rattle.sp_theory.specs.Points.{count_of};
ghost use Rattle.sp_theory.specs.Model.{least_return, top};
ghost use Rattle.sp_theory.specs.Backup.{tick_bound};
ghost use Rattle.sp_model.specs.Problem.{action_of, move_of, no_decl, no_factor, problem, reward_of, sight_of, sizes_of};

use crate::Func;
use crate::comparing::Same;
use crate::counting::point_count;
use crate::names::Name;
use crate::parts::Parts;
use crate::range::{greatest_reward, least_reward, worth_above, worth_below};
use sp_dd::{Ids, Scope};
use std::marker;

/// A factored POMDP (Poupart 2005). Contracts see it as its parts, of which `IsModel` holds. No call takes memory.
#[derive(Drop)]
pub struct Model {
    parts: Parts,
    states: u64,
    joints: u64,
    least_return: i128,
    top: i128,
}

impl marker::Model for Model {
    ghost use Rattle.sp_model.specs.declared.parts.Parts.{Parts};
    ghost use Rattle.sp_model.specs.Kept.{IsKeptBeside};

    ghost Value = { Parts };

    ghost view = { λ m. m.parts };

    ghost invariant = { λ m. IsKeptBeside m.parts m.states m.joints m.least_return m.top };
}

impl Model {
    ghost use Rattle.sp_model.specs.Kept.{IsModel};

    /// The model of these parts.
    pub fn new(parts: Parts) -> Model
        requires { IsModel parts }
        ensures { result ≡ parts }
    {
        let states = point_count(parts.variables.as_slice());
        let joints = point_count(parts.sights.as_slice());
        let least = least_reward(parts.actions.as_slice());
        let greatest = greatest_reward(parts.actions.as_slice());
        let least_return = worth_below(least, parts.discount);
        let top = worth_above(greatest, parts.discount);
        Model {
            parts,
            states,
            joints,
            least_return,
            top,
        }
    }

    /// The parts, of which all holds that the type keeps.
    pub fn parts(&self) -> &Parts
        ensures value { result.now ≡ self.now }
        ensures known { IsModel self.now }
    {
        &self.parts
    }

    /// How many states there are.
    pub fn state_count(&self) -> u64
        ensures value { result ≡ count_of (sizes_of self.now.variables) }
        ensures few { result ≤ 2 ^ 24 }
        ensures some { 0 < result }
    {
        self.states
    }

    /// How many joint observations there are.
    pub fn joint_count(&self) -> u64
        ensures value { result ≡ count_of (sizes_of self.now.sights) }
        ensures few { result ≤ 4096 }
        ensures some { 0 < result }
    {
        self.joints
    }

    /// How many actions there are.
    pub fn action_count(&self) -> u64
        ensures value { result ≡ length self.now.actions }
        ensures few { result ≤ 256 }
        ensures some { 0 < result }
    {
        self.parts.actions.len()
    }

    /// The scope of all functions: slots `2i` and `2i + 1` for variable `i` now and next, and behind those one slot for each observation variable.
    pub fn scope(&self) -> &Scope
        ensures { result.now ≡ self.now.scope }
    {
        &self.parts.scope
    }

    /// The discount, in ticks of 10^-9.
    pub fn discount(&self) -> u64
        ensures value { result ≡ self.now.discount }
        ensures small { result ≤ 999000000 }
    {
        self.parts.discount
    }

    /// What the least reward for ever is worth, in ticks of 10^-9, rounded down.
    pub fn least_return(&self) -> i128
        ensures value { result ≡ least_return (problem self.now) }
        ensures small { unsigned_abs result ≤ 10 ^ 18 }
    {
        self.least_return
    }

    /// What the greatest reward for ever is worth, in ticks of 10^-9, rounded up.
    pub fn top(&self) -> i128
        ensures value { result ≡ top (problem self.now) }
        ensures small { unsigned_abs result ≤ 10 ^ 18 }
    {
        self.top
    }

    /// How many ticks a backup may lose at most, for each unit of weight.
    pub fn tick_bound(&self) -> u64
        ensures { result ≡ tick_bound (problem self.now) }
    {
        (self.variable_count() + self.sight_count()) * (self.joints + 1) + 1
    }

    /// How many state variables there are.
    pub fn variable_count(&self) -> u64
        ensures value { result ≡ length self.now.variables }
        ensures few { result ≤ 24 }
        ensures some { 0 < result }
    {
        self.parts.variables.len()
    }

    /// How many observation variables there are.
    pub fn sight_count(&self) -> u64
        ensures value { result ≡ length self.now.sights }
        ensures few { result ≤ 8 }
        ensures some { 0 < result }
    {
        self.parts.sights.len()
    }

    /// The reward of an action less its cost, in ticks of 10^-9, as a function of unprimed and primed slots.
    pub fn reward(&self, action: u64) -> &Func
        requires { action < length self.now.actions }
        ensures { result.now ≡ reward_of self.now action }
    {
        &self.parts.actions.at(action).reward
    }

    /// The probability, in ticks of 10^-9, of a variable's next value, as a function of unprimed slots and of primed ones up to its own.
    pub fn moves(&self, action: u64, variable: u64) -> &Func
        requires action { action < length self.now.actions }
        requires variable { variable < length self.now.variables }
        ensures { result.now ≡ move_of self.now action variable }
    {
        self.parts.actions.at(action).moves.at(variable)
    }

    /// The probability, in ticks of 10^-9, of an observation variable's value, as a function of primed slots and its own.
    pub fn sight(&self, action: u64, variable: u64) -> &Func
        requires action { action < length self.now.actions }
        requires variable { variable < length self.now.sights }
        ensures { result.now ≡ sight_of self.now action variable }
    {
        self.parts.actions.at(action).sight.at(variable)
    }

    /// How many factors the initial belief has.
    pub fn init_count(&self) -> u64
        ensures { result ≡ length self.now.init }
    {
        self.parts.init.len()
    }

    /// A factor of the initial belief: probabilities in ticks of 10^-9, as a function of unprimed slots.
    pub fn init_factor(&self, k: u64) -> &Func
        requires { k < length self.now.init }
        ensures { result.now ≡ (slice_index_or self.now.init k no_factor).func }
    {
        &self.parts.init.at(k).func
    }

    /// The own variables of a factor of the initial belief, rising.
    pub fn init_own(&self, k: u64) -> &Ids
        requires { k < length self.now.init }
        ensures { result.now ≡ (slice_index_or self.now.init k no_factor).own }
    {
        &self.parts.init.at(k).own
    }

    /// The name of a state variable.
    pub fn variable_name(&self, variable: u64) -> &Name
        requires { variable < length self.now.variables }
        ensures { result.now ≡ (slice_index_or self.now.variables variable no_decl).name }
    {
        &self.parts.variables.at(variable).name
    }

    /// The name of a value of a state variable.
    pub fn value_name(&self, variable: u64, value: u64) -> &Name
        requires variable { variable < length self.now.variables }
        requires value { value < length (slice_index_or self.now.variables variable no_decl).values }
        ensures { slice_get (slice_index_or self.now.variables variable no_decl).values value ≡ Some result.now }
    {
        self.parts.variables.at(variable).values.at(value)
    }

    /// The name of an observation variable.
    pub fn sight_name(&self, variable: u64) -> &Name
        requires { variable < length self.now.sights }
        ensures { result.now ≡ (slice_index_or self.now.sights variable no_decl).name }
    {
        &self.parts.sights.at(variable).name
    }

    /// The name of a value of an observation variable.
    pub fn sight_value_name(&self, variable: u64, value: u64) -> &Name
        requires variable { variable < length self.now.sights }
        requires value { value < length (slice_index_or self.now.sights variable no_decl).values }
        ensures { slice_get (slice_index_or self.now.sights variable no_decl).values value ≡ Some result.now }
    {
        self.parts.sights.at(variable).values.at(value)
    }

    /// The name of an action.
    pub fn action_name(&self, action: u64) -> &Name
        requires { action < length self.now.actions }
        ensures { result.now ≡ (action_of self.now action).name }
    {
        &self.parts.actions.at(action).name
    }

    /// Whether names, sizes, discount, factors with their own variables, and all functions agree.
    pub fn same(&self, other: &Model) -> bool
        ensures { IsTrue result ↔ (self.now ≡ other.now) }
    {
        self.parts.same(&other.parts)
    }
}
