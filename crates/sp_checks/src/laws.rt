//! What holds of the refusals of texts. The function does nothing: its contract is the law.

ghost use Rattle.sp_checks.specs.Answers.{OneRefusalOfText};

/// One row of the table comes first: no two that hold at one place are of one kind and say different things.
pub fn one_refusal()
    ensures { OneRefusalOfText }
{}
