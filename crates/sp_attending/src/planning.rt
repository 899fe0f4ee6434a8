//! Scripts that are served while one thread plans.

ghost use Rattle.std.specs.Prelude.{◌≡◌, true, All, IfOk, OnOk};
ghost use Rattle.sp_theory.specs.Points.{count_of};
ghost use Rattle.sp_model.specs.Problem.{sizes_of};
ghost use Rattle.sp_core.specs.Books.{state_of};
ghost use Rattle.sp_planner.specs.Planned.{picking_words};
ghost use Rattle.sp_planner.specs.Turns.{IsLaterBook, IsRun};
ghost use Rattle.sp_session.specs.Logs.{logs_of};
ghost use Rattle.sp_script.specs.Laws.{IsObservationWithin};
ghost use Rattle.sp_attending.specs.Runs.{IsServedFrom};
ghost use Rattle.sp_serving.specs.Serving.{HasEntriesOf};

use crate::attending::Attendant;
use sp_core::Book;
use sp_dd::NoMemory;
use sp_planner::finish;
use sp_script::Commands;
use sp_serving::Serving;
use sp_session::Transcript;
use std::alloc::Global;
use std::sync::Arc;

/// Plans a book to its end as `sp_planner::finish` does, and serves a script while it does: one command before the first turn, one
/// after each turn that has added an edition and doesn't end the run, and the rest at the end, each on the edition that is the newest
/// then. Gives the logs with their closing answers. After an error the book stands later in its run. Each command that is served before
/// the end costs a comparison of the book's task with the script's.
pub fn finish_serving(
    alloc: Global,
    book: &mut Book,
    pruning: bool,
    commands: Commands,
) -> Result<Transcript, NoMemory>
    requires { All (IsObservationWithin (count_of (sizes_of book.old.task.model.sights))) commands }
    ensures run { OnOk result (IsRun pruning book.old (picking_words book.old.task.options) book.new) }
    ensures done { OnOk result ((state_of book.new).done ≡ true) }
    ensures later { IsLaterBook book.old book.new }
    ensures logs { IfOk result (λ logs. IsServedFrom pruning book.old book.new commands (logs_of logs)) }
    ensures known { IfOk result (λ logs. All (HasEntriesOf book.old.task.model) (logs_of logs)) }
{
    // what is known of each book and of commands, here and at the end
    let _ = book.task();
    let _ = commands.as_slice();
    let task = Arc::try_clone(book.task())?;
    let mut attendant = Attendant {
        serving: Serving::new(alloc, task, commands),
    };
    finish(alloc, book, pruning, &mut attendant)?;
    let _ = book.task();
    let Attendant { serving } = attendant;
    let logs = serving.finish(book.latest())?;
    Ok(logs)
}
