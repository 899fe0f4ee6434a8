//! When written texts are accepted, and what they mean. The functions do nothing: their contracts are the laws.

ghost use Rattle.sp_written.specs.Acceptance.{NodesAreAccepted};
ghost use Rattle.sp_written.specs.Models.{WrittenModelsAreRead};

/// A node whose branches list each value of its variable once, in order, and aren't refused, isn't refused.
pub fn nodes_are_accepted()
    ensures { NodesAreAccepted }
{}

/// The bytes of a text that is written by the productions mean the model that its sections lead to.
pub fn written_models_are_read()
    ensures { WrittenModelsAreRead }
{}
