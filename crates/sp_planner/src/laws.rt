//! Laws of finished books. The functions do nothing: their contracts are the laws.

ghost use Rattle.sp_planner.specs.Laws.{FinishedBooksArePlanned, FinishedBooksAreTrusted};

/// A book that was opened for a plan and then finished is what one thread plans.
pub fn finished_books_are_planned()
    ensures { FinishedBooksArePlanned }
{}

/// A book that is done is legal and prompt, its vectors are lower bounds, its values never fall, and its backups are close, whoever
/// planned it.
pub fn finished_books_are_trusted()
    ensures { FinishedBooksAreTrusted }
{}
