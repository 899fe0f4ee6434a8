//! Laws of judged plan files. Each function does nothing: its contract is the law.

ghost use Rattle.sp_judging.specs.Laws.{LegalFilesAreNotRefused, LegalFilesAreSound, MigratedFilesAreLegal, FilesWithValuesStay, OneRunFile, OneScriptFile, RunFilesAreLegal, ScriptFilesAreLegal};

/// Of the same bytes one thing holds at most: they are a legal plan file with true values, they are a plan file that isn't, or they are
/// at fault.
pub fn legal_files_are_not_refused()
    ensures { LegalFilesAreNotRefused }
{}

/// Whoever wrote a legal file: each vector of its run is at every state at most the exact return of the plan that its links spell, no
/// value at a sampled belief falls, and each recorded backup is close to the exact one.
pub fn legal_files_are_sound()
    ensures { LegalFilesAreSound }
{}

/// What is migrated is a legal file of the same run and transcript.
pub fn migrated_files_are_legal()
    ensures { MigratedFilesAreLegal }
{}

/// A legal file of version 2 is migrated to itself.
pub fn files_with_values_stay()
    ensures { FilesWithValuesStay }
{}

/// What is planned while a script is served is a legal file with true values, where the canonical text of its model means that model.
pub fn script_files_are_legal()
    ensures { ScriptFilesAreLegal }
{}

/// What is planned while a script is served is the file of one model, of one list of options and of one run with its logs only.
pub fn one_script_file()
    ensures { OneScriptFile }
{}

/// The plan file of a run, however many threads planned it, is a legal file with true values, where the canonical text of its model
/// means that model.
pub fn run_files_are_legal()
    ensures { RunFilesAreLegal }
{}

/// The plan file of a run is that of one model, of one list of options and of one run with its logs only.
pub fn one_run_file()
    ensures { OneRunFile }
{}
