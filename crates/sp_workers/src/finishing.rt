//! Planning to the end on one thread.

ghost use Rattle.std.specs.Prelude.{◌≡◌, OnOk, false, true};
ghost use Rattle.sp_core.specs.Books.{state_of};
ghost use Rattle.sp_planner.specs.Planned.{picking_words};
ghost use Rattle.sp_planner.specs.Turns.{IsLaterBook, IsRun};

use sp_core::Book;
use sp_dd::NoMemory;
use sp_planner::Idle;
use std::alloc::Global;

/// Plans a book to its end on one thread, without pruning, from whatever events and marks it has, by the words of the task's seed
/// plus 1. After an error the book stands later in its run.
pub fn finish(alloc: Global, book: &mut Book) -> Result<(), NoMemory>
    ensures run { OnOk result (IsRun false book.old (picking_words book.old.task.options) book.new) }
    ensures done { OnOk result ((state_of book.new).done ≡ true) }
    ensures later { IsLaterBook book.old book.new }
{
    let mut idle = Idle;
    sp_planner::finish(alloc, book, false, &mut idle)
}
