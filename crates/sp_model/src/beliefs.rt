//! Weights of states, and sampled beliefs.

ghost use Rattle.std.specs.Prelude.{◌≡◌, ◌<◌, Some, length, map, slice_get};

use crate::Func;
use crate::sequence::Sequence;
use std::marker::Model;

/// A belief as whole numbers, with a total above 2^61 and at most 2^62: one for each state, which stands for that number over
/// their total.
#[derive(Drop)]
pub struct Weights {
    func: Func,
}

impl Model for Weights {
    ghost use Rattle.sp_dd.specs.Func.{Func};
    ghost use Rattle.sp_model.specs.Weights.{AreWeights};

    ghost Value = { Func };

    ghost view = { λ w. w.func };

    ghost invariant = { λ w. AreWeights w.func };
}

impl Weights {
    ghost use Rattle.sp_model.specs.Weights.{AreWeights};

    /// The weights that a function gives the states. Takes no memory.
    pub fn new(func: Func) -> Weights
        requires { AreWeights func }
        ensures { result ≡ func }
    {
        Weights { func }
    }

    /// The weights as a function of unprimed slots. Takes no memory.
    pub fn func(&self) -> &Func
        ensures value { result.now ≡ self.now }
        ensures known { AreWeights self.now }
    {
        &self.func
    }
}

/// A sampled belief, with the action and the joint observation that led to it.
#[derive(Drop)]
pub struct Sample {
    pub action: u64,
    /// The number of the joint observation, with the last observation variable fastest.
    pub observation: u64,
    pub weights: Weights,
}

pub type SampleList = Sequence<Sample>;

/// Sampled beliefs.
#[derive(Drop)]
pub struct Samples {
    pub list: SampleList,
    /// How many beliefs are sampled one after another from the initial one on.
    pub depth: u64,
}

impl Samples {
    /// The weights of a sampled belief. Takes no memory.
    pub fn weights(&self, k: u64) -> &Weights
        requires { k < length self.now.list }
        ensures { slice_get (map (λ s. s.weights) self.now.list) k ≡ Some result.now }
    {
        &self.list.at(k).weights
    }
}
