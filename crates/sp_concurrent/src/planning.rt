//! Planning beside desks.

ghost use Rattle.std.specs.Prelude.{◌≡◌, ℕ, ◌<◌, [], length, slice_index_or, true, vec_len, All, IfOk, OnOk};
ghost use Rattle.sp_theory.specs.Points.{count_of};
ghost use Rattle.sp_model.specs.Problem.{sizes_of};
ghost use Rattle.sp_core.specs.Books.{IsBook, state_of};
ghost use Rattle.sp_core.specs.Opening.{first_parts};
ghost use Rattle.sp_publish.specs.Published.{ListGoesOn};
ghost use Rattle.sp_session.specs.Logs.{logs_of};
ghost use Rattle.sp_script.specs.Laws.{IsObservationWithin};
ghost use Rattle.sp_desk.specs.Runs.{DeskRunParts, left_of, work_of};
ghost use Rattle.sp_workers.specs.Later.{StandsLater};
ghost use Rattle.sp_workers.specs.Shared.{IsBeginning};
ghost use Rattle.sp_concurrent.specs.Served.{AreOpened, AreServedBeside, HasEnded, known_of};

use crate::closing::close_desks;
use crate::deals::{deal, desk_count, sessions_of};
use crate::gathering::gather;
use crate::opening::{Opened, open_desks};
use sp_core::Book;
use sp_dd::NoMemory;
use sp_desk::DeskRun;
use sp_publish::{Notice, Publisher};
use sp_script::Commands;
use sp_session::Transcript;
use sp_workers::{Gate, Joined, finish, plan_beside, publish_rest};
use std::alloc::Global;
use std::marker::Brand;
use std::sync::Wait;
use std::thread::Threads;

/// A book that is done, and what was served beside it.
pub(crate) struct Served {
    pub book: Book,
    pub transcript: Transcript,
}

/// A book that is done, the desks beside it, and the notice of the end.
struct Ended {
    book: Book,
    runs: Vec<DeskRun>,
    end: Notice,
}

/// Plans a book without events to its end by so many workers, while the sessions of a script act at desks. May wait.
pub(crate) fn plan_serving<R: Threads + Wait + Sync, G: Gate + Sync>(
    rt: &R,
    alloc: Global,
    book: Book,
    commands: &Commands,
    workers: u64,
    gate: &G,
) -> Result<Served, NoMemory>
    requires opening { book ≡ first_parts book.task }
    requires within { All (IsObservationWithin (count_of (sizes_of book.task.model.sights))) commands.now }
    ensures task { IfOk result (λ s. s.book.task ≡ book.task) }
    ensures known { IfOk result (λ s. IsBook s.book) }
    ensures done { IfOk result (λ s. (state_of s.book).done ≡ true) }
    ensures served { IfOk result (λ s. AreServedBeside s.book commands.now (logs_of s.transcript)) }
{
    let commands = commands.as_slice();
    let names = sessions_of(alloc, commands)?;
    let desks = desk_count(commands);
    let hands = deal(alloc, commands, &names, desks)?;
    let opened = open_desks(rt, alloc, &book, hands)?;
    let Ended { book, runs, end } = plan_to_end(rt, alloc, book, opened, workers, gate)?;
    let queues = close_desks(alloc, runs, &end)?;
    let transcript = gather(alloc, commands, &names, desks, queues)?;
    Ok(Served { book, transcript })
}

/// Plans a book without events to its end, and publishes its list to the end. The publisher is closed, also after an error.
fn plan_to_end<R: Threads + Wait + Sync, G: Gate + Sync>(
    rt: &R,
    alloc: Global,
    book: Book,
    opened: Opened,
    workers: u64,
    gate: &G,
) -> Result<Ended, NoMemory>
    requires opening { book.history ≡ [] }
    requires beginning { IsBeginning opened.publisher book }
    requires some { 0 < length opened.publisher.editions }
    requires first { opened.first.list ≡ opened.publisher.list }
    requires runs { All (λ r. r.desk.known.list ≡ opened.publisher.list) opened.runs.items }
    ensures { IfOk result (HasEnded book opened.publisher.list opened.runs.items) }
{
    let Opened {
        publisher,
        first,
        runs,
    } = opened;
    let Joined {
        book,
        publisher,
        besides,
    } = plan_beside::<Brand, G, DeskRun, R>(rt, alloc, book, publisher, first, runs, workers, gate);
    let mut book = book;
    let mut publisher = publisher;
    let end = end_run(rt, alloc, &mut book, &mut publisher);
    publisher.close(rt);
    match end {
        Ok(end) => Ok(Ended {
            book,
            runs: besides.into_vec(),
            end,
        }),
        Err(error) => Err(error),
    }
}

/// Plans to the end what is left, and publishes the rest: the notice of the end.
fn end_run<R: Wait>(
    rt: &R,
    alloc: Global,
    book: &mut Book,
    publisher: &mut Publisher,
) -> Result<Notice, NoMemory>
    requires { IsBeginning publisher.old book.old }
    ensures task { book.new.task ≡ book.old.task }
    ensures known { IsBook book.new }
    ensures done { OnOk result ((state_of book.new).done ≡ true) }
    ensures editions { IfOk result (λ end. end.editions ≡ book.new.editions) }
    ensures ended { IfOk result (λ end. end.ended ≡ true) }
    ensures list { IfOk result (λ end. end.list ≡ publisher.old.list) }
{
    let finished = finish(alloc, book);
    // what is known of each book
    let _ = book.task();
    finished?;
    let end = publish_rest(rt, book, publisher)?;
    Ok(end)
}
