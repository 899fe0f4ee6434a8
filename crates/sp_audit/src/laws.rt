//! Laws of verdicts. Each function does nothing: its contract is the law.

ghost use Rattle.sp_audit.specs.Laws.{IsWrongOnce, LegalRunsKeepTheirWord, NothingIsNeither, WrongIsNotLegal};

/// What is wrong isn't legal.
pub fn wrong_is_not_legal()
    ensures { WrongIsNotLegal }
{}

/// A run with its logs is wrong in one place, by one clause.
pub fn is_wrong_once()
    ensures { IsWrongOnce }
{}

/// Where settles are at sampled beliefs and joint observations are the model's, nothing is neither legal nor wrong.
pub fn nothing_is_neither()
    ensures { NothingIsNeither }
{}

/// Whoever planned it: each vector of a legal run is at every state at most the exact return of the plan that its links spell, no value
/// at a sampled belief falls, and each recorded backup is close to the exact one.
pub fn legal_runs_keep_their_word()
    ensures { LegalRunsKeepTheirWord }
{}
