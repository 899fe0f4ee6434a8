//! Laws of the logs of sessions that act on published editions.

ghost use Rattle.sp_theory.specs.SessionLaws.{LegalLogsAgree, LegalLogsCloseOnce, LogsNeverGoBack, SeenLogsAreOfRuns};

/// A log is legal for a run's editions where it is legal for editions with the same ids, actions and values at all states.
pub fn legal_logs_agree()
    ensures { LegalLogsAgree }
{}

/// A legal log never names an older edition than before.
pub fn logs_never_go_back()
    ensures { LogsNeverGoBack }
{}

/// A log over the editions that a session saw is one over the run's, if those are the run's and each told number is of one.
pub fn seen_logs_are_of_runs()
    ensures { SeenLogsAreOfRuns }
{}

/// A legal log ends with the closing answer, on the last edition, and has no other.
pub fn legal_logs_close_once()
    ensures { LegalLogsCloseOnce }
{}
