//! Laws of belief updates and of sampled beliefs. Weights are whole numbers with a total in (2^61, 2^62], probabilities are in
//! ticks of 10^-9.

ghost use Rattle.std.specs.Prelude.{List, ℕ};
ghost use Rattle.sp_theory.specs.BeliefLaws.{UpdateIsClose, RuledOutIsUnseen, UnseenIsSlight, SomethingIsSeen, ScalingGivesScale, UpdateGainsNothing, NextIsScaled, DrawnIsSeen, InitialIsScaled, SampleIsNext, SamplesAreNext, LimitsKeepWeight};

/// The initial weights are to scale.
pub fn initial_is_scaled()
    ensures { InitialIsScaled }
{}

/// The next weights before scaling are at most the exact ones, and below them at most one for each variable and state.
pub fn update_is_close()
    ensures { UpdateIsClose }
{}

/// A joint observation that the exact update rules out is unseen.
pub fn ruled_out_is_unseen()
    ensures { RuledOutIsUnseen }
{}

/// A joint observation that is unseen has next to no exact weight: at most one for each variable and pair of states.
pub fn unseen_is_slight()
    ensures { UnseenIsSlight }
{}

/// Weights of a total above 0 and at most 2^62 are brought to scale.
pub fn scaling_gives_scale()
    ensures { ScalingGivesScale }
{}

/// The next weights before scaling have no greater total than the weights.
pub fn update_gains_nothing()
    ensures { UpdateGainsNothing }
{}

/// The next weights are to scale.
pub fn next_is_scaled()
    ensures { NextIsScaled }
{}

/// At weights to scale some joint observation can be drawn after each action: the totals before scaling don't sum to 0.
pub fn something_is_seen()
    ensures { SomethingIsSeen }
{}

/// The joint observation that a word draws is one of the model's, and the next weights after it exist.
pub fn drawn_is_seen()
    ensures { DrawnIsSeen }
{}

/// A sample after weights to scale has an action and a joint observation of the model and the next weights after them, to scale.
pub fn sample_is_next()
    ensures { SampleIsNext }
{}

/// All samples of a chooser are samples of the model, to scale. The chooser's states are lists of numbers here: they can hold all
/// that it was asked so far.
pub fn samples_are_next()
    ensures { SamplesAreNext (List ℕ) }
{}

/// At most 24 state variables with 2^24 states and 8 observation variables with 4096 joint observations keep weight.
pub fn limits_keep_weight()
    ensures { LimitsKeepWeight }
{}
