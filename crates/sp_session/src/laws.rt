//! Laws of sessions. Each function does nothing: its contract is the law.

ghost use Rattle.sp_session.specs.Laws.{ClosedLogsAreLegal, SessionsAreOfRuns};

/// The log of a session is one of a run, if the editions that it answered on are the run's and each told number is of one.
pub fn sessions_are_of_runs()
    ensures { SessionsAreOfRuns }
{}

/// With the closing answer on the last edition of such a run it is legal.
pub fn closed_logs_are_legal()
    ensures { ClosedLogsAreLegal }
{}
