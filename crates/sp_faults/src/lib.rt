//! Faults of runs and of logs: the first event or entry that may not come next, and the clause that it breaks.
//!
//! There is no code to run here: each function has an empty body, and its contract is a law, as in `sp_theory`.
#![tactic(auto)]

ghost use Rattle.sp_faults.specs.Laws.{LegalRunsAreSound, LogsAreWrongOnce, NoLogIsNeither, NoRunIsNeither, PruneTestsAgree, PruneTestsTell, RunsAreWrongOnce, WrongLogsAgree, WrongLogsAreNotLegal, WrongRunsAreNotLegal};

/// A wrong run isn't legal.
pub fn wrong_runs_are_not_legal()
    ensures { WrongRunsAreNotLegal }
{}

/// A run is wrong at one event, by one clause.
pub fn runs_are_wrong_once()
    ensures { RunsAreWrongOnce }
{}

/// No run whose settles are at sampled beliefs is neither legal nor wrong.
pub fn no_run_is_neither()
    ensures { NoRunIsNeither }
{}

/// A legal run's vectors are lower bounds, its values at sampled beliefs never fall, and its backups are close to the
/// exact ones, whether the run is prompt or not.
pub fn legal_runs_are_sound()
    ensures { LegalRunsAreSound }
{}

/// A wrong log isn't legal.
pub fn wrong_logs_are_not_legal()
    ensures { WrongLogsAreNotLegal }
{}

/// A log is wrong at one entry, by one clause.
pub fn logs_are_wrong_once()
    ensures { LogsAreWrongOnce }
{}

/// No log whose observations are the model's is neither legal nor wrong.
pub fn no_log_is_neither()
    ensures { NoLogIsNeither }
{}

/// A log is wrong in the same way for editions that agree at all states.
pub fn wrong_logs_agree()
    ensures { WrongLogsAgree }
{}

/// The test of a prune passes where its pairs may go.
pub fn prune_tests_tell()
    ensures { PruneTestsTell }
{}

/// The test of a prune passes alike for editions that agree at all states.
pub fn prune_tests_agree()
    ensures { PruneTestsAgree }
{}
