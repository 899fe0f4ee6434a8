//! Planning tasks.

ghost use Rattle.std.specs.Prelude.{◌≡◌, ◌<◌, ◌↔◌, IsTrue};
ghost use Rattle.sp_model.specs.Problem.{shape_of};

use crate::same::{same_options, same_samples};
use sp_model::{Model, Samples, Weights};
use std::marker;

/// How actions are chosen while beliefs are sampled.
#[derive(Clone, Copy, Drop)]
pub enum Explore {
    /// By words of a generator.
    Uniform,
    /// One action after another.
    Sweep,
}

/// What a plan is asked for.
#[derive(Clone, Copy, Drop)]
pub struct Options {
    /// How many beliefs are sampled: 1 to 4096.
    pub beliefs: u64,
    /// How many beliefs are sampled one after another from the initial one on: 1 to 4096.
    pub depth: u64,
    /// How many stages are planned: 1 to 1000.
    pub stages: u64,
    /// The seed of the random words.
    pub seed: u64,
    pub explore: Explore,
    /// Whether dominated members are pruned after each stage but the last.
    pub prune: bool,
}

/// A model with sampled beliefs and options (Spaan and Vlassis 2005). No call takes memory.
#[derive(Drop)]
pub struct Task {
    model: Model,
    samples: Samples,
    options: Options,
}

impl marker::Model for Task {
    ghost use Rattle.sp_value.specs.Tasks.{TaskParts, IsTask};

    ghost Value = { TaskParts };

    ghost view = { λ t. record { model = t.model; samples = t.samples; options = t.options } };

    ghost invariant = { λ t. IsTask (record { model = t.model; samples = t.samples; options = t.options }) };
}

impl Task {
    ghost use Rattle.sp_value.specs.Tasks.{IsTask, sampled_func};

    /// The task of these parts.
    pub fn new(model: Model, samples: Samples, options: Options) -> Task
        requires { IsTask (record { model = model; samples = samples; options = options }) }
        ensures { result ≡ record { model = model; samples = samples; options = options } }
    {
        Task {
            model,
            samples,
            options,
        }
    }

    /// The model. The task keeps what `IsTask` says.
    pub fn model(&self) -> &Model
        ensures value { result.now ≡ self.now.model }
        ensures known { IsTask self.now }
    {
        &self.model
    }

    /// The sampled beliefs.
    pub fn samples(&self) -> &Samples
        ensures { result.now ≡ self.now.samples }
    {
        &self.samples
    }

    /// The options.
    pub fn options(&self) -> &Options
        ensures { result.now ≡ self.now.options }
    {
        &self.options
    }

    /// The weights of a sampled belief.
    pub fn weights(&self, belief: u64) -> &Weights
        requires { belief < self.now.options.beliefs }
        ensures value { result.now ≡ sampled_func self.now belief }
        ensures shape { result.now.shape ≡ shape_of self.now.model }
    {
        self.samples.weights(belief)
    }

    /// Whether models, samples and options agree.
    pub fn same(&self, other: &Task) -> bool
        ensures { IsTrue result ↔ (self.now ≡ other.now) }
    {
        self.model.same(&other.model)
            && same_options(&self.options, &other.options)
            && same_samples(&self.samples, &other.samples)
    }
}
