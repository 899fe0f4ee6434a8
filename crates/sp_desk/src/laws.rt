//! Laws of desks. Each function does nothing: its contract is the law.

ghost use Rattle.sp_desk.specs.Laws.{DeskRunsServe, DesksAreLegal};

/// The logs of a desk, with the closing answers on the last edition that it knows of, are legal for each run with the editions of
/// its list.
pub fn desks_are_legal()
    ensures { DesksAreLegal }
{}

/// Once no command of a script is left, the logs with the closing answers serve it.
pub fn desk_runs_serve()
    ensures { DeskRunsServe }
{}
