//! What holds of the problem that a model's parts tell. Each function does nothing: its contract is the law.

ghost use Rattle.sp_model.specs.Links.{DotsAreTheSame};
ghost use Rattle.sp_model.specs.ModelLaws.{ModelsAreLawful, ModelsHaveInitial, ReturnsAreBounded};

/// The rows of a model's tables sum to one, it has an action, and its discount is below one.
pub fn models_are_lawful()
    ensures { ModelsAreLawful }
{}

/// The factors of a model's initial belief sum to one over their own variables, on which alone they depend, and share no variable.
pub fn models_have_initial()
    ensures { ModelsHaveInitial }
{}

/// The range of a model's returns is within a billion.
pub fn returns_are_bounded()
    ensures { ReturnsAreBounded }
{}

/// The sum over all states of weights times values is the value of the vector at the weights.
pub fn dots_are_the_same()
    ensures { DotsAreTheSame }
{}
