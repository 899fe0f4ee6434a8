//! The plan file of what several threads plan.

ghost use Rattle.std.specs.Prelude.{All, IfOk};
ghost use Rattle.sp_theory.specs.Points.{count_of};
ghost use Rattle.sp_model.specs.Problem.{sizes_of};
ghost use Rattle.sp_script.specs.Laws.{IsObservationWithin};
ghost use Rattle.sp_planner.specs.Planned.{AreOptions};
ghost use Rattle.sp_planning.specs.RunFiles.{IsRunFileFor};

use crate::planning::{Served, plan_serving};
use sp_choose::Chooser;
use sp_dd::NoMemory;
use sp_model::Model;
use sp_planner::open_book;
use sp_planning::book_file;
use sp_script::Commands;
use sp_value::Options;
use sp_workers::Gate;
use std::alloc::Global;
use std::sync::Wait;
use std::thread::Threads;

/// Samples beliefs as `sp_planner::plan` does, and plans by so many workers beside each other, as `sp_workers::plan_beside` does, with
/// a pruner where the options say so. Meanwhile the sessions of a script act at desks, 8 at most, session j in order of opening at
/// desk j mod their number. A session waits for no backup: those are made outside the lock, and of the commands `sync` alone takes
/// it, for as long as it takes to be told the newest edition. Once the threads have ended, what is left of the run is planned, and
/// what is left of the script is served on its last edition. Gives the plan file of the run, of version 2, with the logs of the
/// sessions in order of opening. The chooser is used up. May wait.
pub fn concurrent_file<R: Threads + Wait + Sync, G: Gate + Sync>(
    rt: &R,
    alloc: Global,
    model: Model,
    options: Options,
    chooser: Box<dyn Chooser + Send>,
    commands: Commands,
    workers: u64,
    gate: &G,
) -> Result<Vec<u8>, NoMemory>
    requires options { AreOptions options }
    requires commands { All (IsObservationWithin (count_of (sizes_of model.sights))) commands }
    ensures { IfOk result (λ text. IsRunFileFor model options (machine chooser) commands text.items) }
{
    // what is known of commands
    let _ = commands.as_slice();
    let book = open_book(alloc, model, options, chooser)?;
    let Served { book, transcript } = plan_serving(rt, alloc, book, &commands, workers, gate)?;
    let text = book_file(alloc, book, &transcript)?;
    Ok(text)
}
