//! Laws of plan files. Each function has an empty body, and its contract is a law.

ghost use Rattle.sp_filed.specs.Laws.{PlanFilesAreNotAtFault, SourcesAreAtFaultOnce, PlanFilesTellOneRun};

/// A plan file has no fault.
pub fn plan_files_are_not_at_fault()
    ensures { PlanFilesAreNotAtFault }
{}

/// Bytes that are no plan file are at fault in one place and by one kind, so a reader's refusal can't be another one.
pub fn sources_are_at_fault_once()
    ensures { SourcesAreAtFaultOnce }
{}

/// A plan file tells one run and one transcript: two runs with logs that it tells are the same, up to how the weights of beliefs
/// are stored.
pub fn plan_files_tell_one_run()
    ensures { PlanFilesTellOneRun }
{}
