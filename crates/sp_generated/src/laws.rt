//! What the generated texts mean. The function does nothing: its contract is the law.

ghost use Rattle.sp_generated.specs.Generated.{GeneratedModelsAreRead};

/// Each generated text means a model, so it is never refused.
pub fn generated_models_are_read()
    ensures { GeneratedModelsAreRead }
{}
