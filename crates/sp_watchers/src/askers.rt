//! Desks that answer while one worker plans.

ghost use Rattle.std.specs.Prelude.{◌≡◌, ◌+◌, ◌<◌, All, IfOk, OnErr, OnOk};
ghost use Rattle.std.specs.Arc.{arc_value};
ghost use Rattle.sp_core.specs.Opening.{first_parts};
ghost use Rattle.sp_publish.specs.Published.{ListGoesOn, IsOfTask};

use crate::begun::begun;
use crate::ended::ended_beside;
use crate::pace::Pace;
use crate::stopped::Stopped;
use crate::tally::Tally;
use sp_core::Book;
use sp_dd::NoMemory;
use sp_desk::Desk;
use sp_publish::{Beside, Notice, Viewer};
use sp_value::Task;
use sp_workers::Besides;
use std::alloc::Global;
use std::marker::Brand;
use std::sync::{Arc, Wait};
use std::thread::Threads;

/// How many desks there are.
const ASKERS: u64 = 4;

/// How often the session of each is asked.
const ANSWERS: u64 = 2_500;

/// After so many answers each takes the newest notice.
const ROUND: u64 = 100;

/// How many answers are made for each backup: all together suffice for all backups.
const ANSWERS_FOR_EACH: u64 = 49;

/// Asks the one session of a desk so many times.
#[derive(Drop)]
pub struct Asker {
    desk: Desk,
    left: u64,
    tally: Tally,
}

impl Asker {
    fn new(
        alloc: Global,
        viewer: Viewer,
        task: &Arc<Task>,
        first: &Notice,
    ) -> Result<Asker, Stopped>
        requires viewer { viewer ≡ first.now }
        requires task { IsOfTask first.now (arc_value task.now) }
        ensures { IfOk result (λ a. a.desk.known.list ≡ first.now.list) }
    {
        let task = Arc::try_clone(task)?;
        let mut desk = Desk::begin(alloc, viewer, task);
        desk.enter("a")?;
        Ok(Asker {
            desk,
            left: ANSWERS,
            tally: Tally::new(),
        })
    }
}

impl Beside for Asker {
    type Work = [u64; 0];

    ghost use Rattle.std.specs.Prelude.{[]};

    ghost work = { λ a. [] };

    ghost known = { λ a. a.desk.known };

    ghost steps = { λ a. a.left };

    fn left(&self) -> u64 {
        self.left
    }

    fn wants_notice(&self) -> bool {
        self.left % ROUND == 0
    }

    fn step(&mut self, told: &Notice) -> Result<(), NoMemory> {
        match self.desk.ask("a", told) {
            Ok(answer) => {
                self.tally.note(answer.edition, told.number());
                self.left -= 1;
                Ok(())
            }
            Err(_) => Err(NoMemory),
        }
    }
}

/// One for each viewer, with a session of the task.
fn askers_of(
    alloc: Global,
    viewers: Vec<Viewer>,
    task: &Arc<Task>,
    first: &Notice,
) -> Result<Vec<Asker>, Stopped>
    requires viewers { All (λ v. v ≡ first.now) viewers.items }
    requires task { IsOfTask first.now (arc_value task.now) }
    ensures { IfOk result (λ made. All (λ a. a.desk.known.list ≡ first.now.list) made.items) }
{
    let mut askers = Vec::new(alloc);
    for viewer in viewers {
        let asker = Asker::new(alloc, viewer, task, first)?;
        askers.push(asker)?;
    }
    Ok(askers)
}

/// Adds what desks answered while one worker planned the book.
pub fn watch_askers<R: Threads + Wait + Sync>(
    rt: &R,
    alloc: Global,
    book: Book,
    text: &mut String,
) -> Result<(), Stopped>
    requires { book ≡ first_parts book.task }
{
    let (publisher, viewers, first) = begun(rt, alloc, &book, ASKERS)?;
    let Ok(askers) = askers_of(alloc, viewers, book.task(), &first) else {
        publisher.close(rt);
        return Err(Stopped);
    };
    let pace = Pace::new(ANSWERS_FOR_EACH);
    let (askers, end, _book) = ended_beside::<Brand, Asker, R>(
        rt, alloc, book, publisher, first, askers, &pace,
    )?;
    let (backups, kept) = (pace.backups(), pace.was_kept());
    writeln!(
        text,
        "{backups} backups, each after the steps before it: {kept}"
    )?;
    push_askers(text, askers, &end)
}

/// Adds a line for each, which then answers on the last edition.
fn push_askers(text: &mut String, askers: Besides<Asker>, end: &Notice) -> Result<(), Stopped>
    requires { All (λ a. a.desk.known.list ≡ end.now.list) askers }
{
    for asker in askers.into_vec() {
        push_asker(text, asker, end)?;
    }
    Ok(())
}

fn push_asker(text: &mut String, asker: Asker, end: &Notice) -> Result<(), Stopped>
    requires { asker.desk.known.list ≡ end.now.list }
{
    let Asker { desk, left, tally } = asker;
    let mut desk = desk;
    match desk.ask("a", end) {
        Ok(answer) => {
            let (answers, as_new) = (ANSWERS.saturating_sub(left), !tally.fell);
            let number = answer.edition;
            Ok(writeln!(
                text,
                "{answers} answers, each as new as those before: {as_new}, at the end: {number}"
            )?)
        }
        Err(_) => Err(Stopped),
    }
}
