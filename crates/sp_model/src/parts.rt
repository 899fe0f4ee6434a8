//! What a model is made of.

use crate::Func;
use crate::names::Name;
use crate::sequence::Sequence;
use sp_dd::{Ids, Scope};

pub type Names = Sequence<Name>;

pub type Decls = Sequence<Decl>;

pub type Funcs = Sequence<Func>;

pub type Factors = Sequence<Factor>;

pub type Actions = Sequence<ActionPart>;

/// A declared variable or observation variable, with its values in declared order.
#[derive(Drop)]
pub struct Decl {
    pub name: Name,
    pub values: Names,
}

/// A factor of the initial belief: its probabilities in ticks, as a function of its own variables.
#[derive(Drop)]
pub struct Factor {
    pub func: Func,
    /// The numbers of its own variables, rising.
    pub own: Ids,
}

/// An action.
#[derive(Drop)]
pub struct ActionPart {
    pub name: Name,
    /// The reward in ticks of value, less the action's cost, as a function of the state and the next state.
    pub reward: Func,
    /// For each state variable the probability in ticks of its next value, given the state and the next values of the
    /// variables before it.
    pub moves: Funcs,
    /// For each observation variable the probability in ticks of its value, given the next state.
    pub sight: Funcs,
}

/// The parts of a model.
#[derive(Drop)]
pub struct Parts {
    pub variables: Decls,
    /// The observation variables.
    pub sights: Decls,
    /// Two slots for each variable, unprimed and primed, and one for each observation variable.
    pub scope: Scope,
    /// The discount in ticks.
    pub discount: u64,
    /// The factors of the initial belief.
    pub init: Factors,
    pub actions: Actions,
}
