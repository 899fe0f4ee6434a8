//! Laws of served scripts. Each function does nothing: its contract is the law.

ghost use Rattle.sp_serving.specs.Laws.{NamesAreDifferent, TranscriptsAgree, TranscriptsAreLegal, TranscriptsServe};

/// Where commands are served on editions of a run, none older than the one before it, and closed on its last, the logs are legal.
pub fn transcripts_are_legal()
    ensures { TranscriptsAreLegal }
{}

/// The logs are those of the script's sessions in order of opening, and reply to each session's commands.
pub fn transcripts_serve()
    ensures { TranscriptsServe }
{}

/// No two logs have one name.
pub fn names_are_different()
    ensures { NamesAreDifferent }
{}

/// Editions with the same numbers and with the same ids, actions and values at all states lead to the same logs.
pub fn transcripts_agree()
    ensures { TranscriptsAgree }
{}
