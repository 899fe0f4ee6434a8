//! Laws of planned files. Each function does nothing: its contract is the law.

ghost use Rattle.sp_planning.specs.Laws.{EmptyScriptsChangeNothing, ModelTextsHaveLines, PlanFilesAreRunFiles, ScriptFilesAreRunFiles};

/// The canonical text of a model has whole lines, none of which ends it.
pub fn model_texts_have_lines()
    ensures { ModelTextsHaveLines }
{}

/// What is planned while a script without commands is served is the plan file without a script.
pub fn empty_scripts_change_nothing()
    ensures { EmptyScriptsChangeNothing }
{}

/// What one thread plans while it serves a script is the plan file of a run, as what several threads plan is.
pub fn script_files_are_run_files()
    ensures { ScriptFilesAreRunFiles }
{}

/// What one thread plans without a script is the plan file of a run.
pub fn plan_files_are_run_files()
    ensures { PlanFilesAreRunFiles }
{}
