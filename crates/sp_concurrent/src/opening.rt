//! Desks that are opened beside a book.

ghost use Rattle.std.specs.Prelude.{◌≡◌, ◌≤◌, ◌++◌, [], ◌∷◌, false, map, vec_len, All, Contains, IfOk, OnOk};
ghost use Rattle.std.specs.Arc.{arc_value};
ghost use Rattle.sp_theory.specs.Points.{count_of};
ghost use Rattle.sp_model.specs.Problem.{sizes_of};
ghost use Rattle.sp_core.specs.Opening.{first_parts};
ghost use Rattle.sp_publish.specs.Published.{IsOfTask};
ghost use Rattle.sp_script.specs.Laws.{IsObservationWithin};
ghost use Rattle.sp_desk.specs.Runs.{work_of};
ghost use Rattle.sp_workers.specs.Shared.{IsBeginning};
ghost use Rattle.sp_concurrent.specs.Served.{AreOpened};

use sp_core::Book;
use sp_dd::NoMemory;
use sp_desk::{Desk, DeskRun};
use sp_publish::{Notice, Publisher, Viewer, begin};
use sp_script::Commands;
use sp_value::Task;
use std::alloc::Global;
use std::sync::{Arc, Wait};

/// The published list of a book's editions, with the desks that act on it.
pub(crate) struct Opened {
    pub publisher: Publisher,
    /// The notice of edition 0.
    pub first: Notice,
    pub runs: Vec<DeskRun>,
}

/// Begins the list of a book's editions, and gives each hand a desk of its own. After an error nothing is left open. May wait.
pub(crate) fn open_desks<R: Wait>(
    rt: &R,
    alloc: Global,
    book: &Book,
    hands: Vec<Commands>,
) -> Result<Opened, NoMemory>
    requires opening { book.now ≡ first_parts book.now.task }
    requires some { 1 ≤ vec_len hands }
    requires few { vec_len hands ≤ 8 }
    requires within { All (All (IsObservationWithin (count_of (sizes_of book.now.task.model.sights)))) hands.items }
    ensures { IfOk result (λ opened. AreOpened book.now hands.items opened) }
{
    let edition = Arc::try_clone(book.latest())?;
    let (publisher, viewers, first) = begin(rt, alloc, edition, hands.len() as u64)?;
    match seat(alloc, book.task(), viewers, hands) {
        Ok(runs) => Ok(Opened {
            publisher,
            first,
            runs,
        }),
        Err(error) => {
            publisher.close(rt);
            Err(error)
        }
    }
}

/// A desk for each hand, with a viewer of its own.
fn seat(
    alloc: Global,
    task: &Arc<Task>,
    viewers: Vec<Viewer>,
    hands: Vec<Commands>,
) -> Result<Vec<DeskRun>, NoMemory>
    requires count { vec_len viewers ≡ vec_len hands }
    requires task { All (λ v. IsOfTask v (arc_value task.now)) viewers.items }
    requires within { All (All (IsObservationWithin (count_of (sizes_of (arc_value task.now).model.sights)))) hands.items }
    ensures work { IfOk result (λ runs. map work_of runs.items ≡ map (λ cs. (cs, arc_value task.now)) hands.items) }
    ensures known { IfOk result (λ runs. All (λ r. Contains viewers.items r.desk.known) runs.items) }
{
    let mut viewers = viewers;
    let mut runs = Vec::new(alloc);
    for commands in hands {
        let Some(viewer) = viewers.pop() else {
            unreachable!()
        };
        let run = seat_one(alloc, task, viewer, commands)?;
        push_run(&mut runs, run)?;
    }
    Ok(runs)
}

/// Appends a desk.
fn push_run(runs: &mut Vec<DeskRun>, run: DeskRun) -> Result<(), NoMemory>
    ensures { OnOk result (runs.new.items ≡ runs.old.items ++ run ∷ []) }
{
    runs.push(run).map_err(|_| NoMemory)?;
    Ok(())
}

/// A desk with a viewer, which is to serve these commands.
fn seat_one(
    alloc: Global,
    task: &Arc<Task>,
    viewer: Viewer,
    commands: Commands,
) -> Result<DeskRun, NoMemory>
    requires task { IsOfTask viewer (arc_value task.now) }
    requires within { All (IsObservationWithin (count_of (sizes_of (arc_value task.now).model.sights))) commands }
    ensures work { IfOk result (λ run. work_of run ≡ (commands, arc_value task.now)) }
    ensures known { IfOk result (λ run. run.desk.known ≡ viewer) }
{
    let task = Arc::try_clone(task)?;
    let desk = Desk::begin(alloc, viewer, task);
    Ok(DeskRun::new(desk, commands))
}
