//! The law of scripts that are served in parts. The function does nothing: its contract is the law.

ghost use Rattle.sp_concurrent.specs.Laws.{PartsServeTheWhole};

/// Where sessions are dealt to desks and each desk's logs serve its commands, all logs, in order of opening, serve the script.
pub fn parts_serve_the_whole()
    ensures { PartsServeTheWhole }
{}
