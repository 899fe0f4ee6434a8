//! The last steps of desks, and their closing answers.

ghost use Rattle.std.specs.Prelude.{◌≡◌, ◌++◌, [], ◌∷◌, true, All, IfOk, OnOk};
ghost use Rattle.std.specs.List.{AllZip};
ghost use Rattle.sp_concurrent.specs.Served.{IsClosed};

use crate::queues::Queue;
use sp_dd::NoMemory;
use sp_desk::DeskRun;
use sp_publish::{Beside, Notice};
use sp_session::Transcript;
use std::alloc::Global;

/// Serves the commands that each desk has left, and gives the logs of each with the closing answers on the last edition.
pub(crate) fn close_desks(
    alloc: Global,
    runs: Vec<DeskRun>,
    end: &Notice,
) -> Result<Vec<Queue>, NoMemory>
    requires list { All (λ r. r.desk.known.list ≡ end.now.list) runs.items }
    requires ended { end.now.ended ≡ true }
    ensures { IfOk result (λ desks. AllZip (IsClosed end.now) runs.items desks.items) }
{
    let mut desks = Vec::new(alloc);
    for run in runs {
        let logs = close_desk(run, end)?;
        push_queue(&mut desks, Queue::of(logs))?;
    }
    Ok(desks)
}

/// Appends the logs of a desk.
fn push_queue(desks: &mut Vec<Queue>, queue: Queue) -> Result<(), NoMemory>
    ensures { OnOk result (desks.new.items ≡ desks.old.items ++ queue ∷ []) }
{
    desks.push(queue).map_err(|_| NoMemory)?;
    Ok(())
}

/// Serves the commands that a desk has left, and gives its logs with the closing answers.
fn close_desk(run: DeskRun, end: &Notice) -> Result<Transcript, NoMemory>
    requires list { run.desk.known.list ≡ end.now.list }
    requires ended { end.now.ended ≡ true }
    ensures { IfOk result (IsClosed end.now run) }
{
    let mut run = run;
    while run.left() > 0 {
        run.step(end)?;
    }
    // what is known of each run
    let _ = run.commands();
    run.desk().closing(end)
}
