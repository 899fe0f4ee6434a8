//! Laws of books. Each function does nothing: its contract is the law.

ghost use Rattle.sp_core.specs.Laws.{BooksAreSound, DominatedMayBePruned};

/// Each vector of a book's editions is at most the exact return of its plan, sampled values never fall, no edition is empty or
/// repeats a record, and each recorded backup is close to the exact one.
pub fn books_are_sound()
    ensures { BooksAreSound }
{}

/// The dominated pairs of an edition may be pruned.
pub fn dominated_may_be_pruned()
    ensures { DominatedMayBePruned }
{}
