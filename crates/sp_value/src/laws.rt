//! What holds of each candidate. Each function does nothing: its contract is the law.

ghost use Rattle.sp_value.specs.Laws.{CandidatesAreLow, CandidatesAreClose, CandidatesAreBackups};

/// At every state a candidate is worth at most the exact one-step value of its links.
pub fn candidates_are_low()
    ensures { CandidatesAreLow }
{}

/// At its belief a candidate is within K ticks below the exact backup on its base, for each unit of weight.
pub fn candidates_are_close()
    ensures { CandidatesAreClose }
{}

/// The vector of a candidate is the one that the theory's backup makes of its action.
pub fn candidates_are_backups()
    ensures { CandidatesAreBackups }
{}
