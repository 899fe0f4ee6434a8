//! What holds of the files and the texts of the commands. Each function does nothing: its contract is the law.

ghost use Rattle.sp_tool.specs.Help.{HelpIsWhole};
ghost use Rattle.sp_tool.specs.Table.{FilesEndOnce};
ghost use Rattle.sp_tool.specs.Texts.{OnePlan, PlannedFilesAreLegal, ShownTextsAreKept};

/// Of the bytes of a command's files, however far they are read, one thing holds at most: all are accepted, the last one is refused, or it
/// isn't legal; and a text is written only where all are accepted. So where the store tells its files, the causes of the statuses Done,
/// Refused and NotLegal exclude one another.
pub fn files_end_once()
    ensures { FilesEndOnce }
{}

/// The help tells of each command by its words, what it does and an example, with each word by which it is called; and of each status.
pub fn help_is_whole()
    ensures { HelpIsWhole }
{}

/// The text of a plan is that of one model, of one list of options and of one run with its logs only: with one action and observation for
/// each belief from 1 on, one list of events, one value for each edition, and one list of entries for each session.
pub fn one_plan()
    ensures { OnePlan }
{}

/// What is planned is a legal plan file with the logs of its sessions, whose values are true, and which has no log where no command was
/// given: so an audit accepts it, up to the limit of plan files.
pub fn planned_files_are_legal()
    ensures { PlannedFilesAreLegal }
{}

/// The canonical text of a model is that of no other, and is its own canonical text.
pub fn shown_texts_are_kept()
    ensures { ShownTextsAreKept }
{}
