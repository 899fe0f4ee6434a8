//! Laws of scripts and of logs that serve them. Each function has an empty body, and its contract is a law.

ghost use Rattle.sp_script.specs.Laws.{ObservationsAreNamed, ObservationsAreWithin, RequestsAreSaid, ScriptsAreNotRefused, SomeSessionsAreServed, SomeSessionsHaveCommands, TextsAreRefusedOnce};

/// A line asks for what its words say: a keyword, a session's name, and for an observation one value for each observation variable.
pub fn requests_are_said()
    ensures { RequestsAreSaid }
{}

/// Values have a number exactly where they name a joint observation, which has that number.
pub fn observations_are_named()
    ensures { ObservationsAreNamed }
{}

/// The joint observations of a script's commands are in range.
pub fn observations_are_within()
    ensures { ObservationsAreWithin }
{}

/// A script isn't refused.
pub fn scripts_are_not_refused()
    ensures { ScriptsAreNotRefused }
{}

/// A text is refused at one line, by one kind.
pub fn texts_are_refused_once()
    ensures { TextsAreRefusedOnce }
{}

/// All commands of some of the sessions, in order, are commands again.
pub fn some_sessions_have_commands()
    ensures { SomeSessionsHaveCommands }
{}

/// Where logs serve a script, those of some of the sessions serve all commands of these sessions.
pub fn some_sessions_are_served()
    ensures { SomeSessionsAreServed }
{}
