//! Viewers that look at a list while one worker plans.

ghost use Rattle.std.specs.Prelude.{◌≡◌, ◌+◌, ◌<◌, All, IfOk, OnErr, OnOk};
ghost use Rattle.sp_core.specs.Opening.{first_parts};
ghost use Rattle.sp_publish.specs.Published.{ListGoesOn};

use crate::begun::begun;
use crate::ended::ended_beside;
use crate::pace::{Pace, TURNS};
use crate::seen::Seen;
use crate::stopped::Stopped;
use sp_core::Book;
use sp_dd::NoMemory;
use sp_publish::{Beside, Notice, Viewer};
use sp_workers::Besides;
use std::alloc::Global;
use std::marker::Brand;
use std::sync::Wait;
use std::thread;
use std::thread::Threads;

/// How many look.
const LOOKERS: u64 = 7;

/// How often each of them looks.
const LOOKS: u64 = 100_000;

/// After so many looks each waits for an edition that is newer by one.
const ROUND: u64 = 100;

/// After so many looks each takes the newest notice.
const NOTICE: u64 = 1_000;

/// How many looks are made for each backup: no more than all make together by the time when each waits for its edition, so that nobody
/// waits for ever; and so many that the planner can't be far ahead of any of them.
const LOOKS_FOR_EACH: u64 = 700;

/// How often each sees an edition that is newer than it was told, at least, however the threads run.
const RISES: u64 = 100;

/// Looks at a list so many times.
#[derive(Drop)]
pub struct Looker {
    viewer: Viewer,
    left: u64,
    seen: Seen,
}

impl Looker {
    fn new(alloc: Global, viewer: Viewer) -> Looker
        ensures { result.viewer ≡ viewer }
    {
        Looker {
            viewer,
            left: LOOKS,
            seen: Seen::new(alloc),
        }
    }

    /// The number that the next look waits for: one more with each round, 0 within a round.
    fn awaited(&self) -> u64 {
        let made = LOOKS.saturating_sub(self.left);
        if made % ROUND == 0 { made / ROUND } else { 0 }
    }
}

impl Beside for Looker {
    type Work = [u64; 0];

    ghost use Rattle.std.specs.Prelude.{[]};

    ghost work = { λ l. [] };

    ghost known = { λ l. l.viewer };

    ghost steps = { λ l. l.left };

    fn left(&self) -> u64 {
        self.left
    }

    fn wants_notice(&self) -> bool {
        self.left % NOTICE == 0
    }

    fn step(&mut self, told: &Notice) -> Result<(), NoMemory> {
        let (awaited, is_newest) = (self.awaited(), self.wants_notice());
        self.seen.compare(told.number(), is_newest);
        self.viewer.learn(told)?;
        look_for(&mut self.viewer, &mut self.seen, told.number(), awaited)?;
        self.left -= 1;
        Ok(())
    }
}

/// Looks until an edition of the awaited number comes, and notes each, which has to be at least the one told.
fn look_for(viewer: &mut Viewer, seen: &mut Seen, told: u64, awaited: u64) -> Result<(), NoMemory>
    ensures { ListGoesOn viewer.old viewer.new }
{
    for _ in 0..TURNS {
        let newest = viewer.latest()?;
        let number = newest.number();
        seen.note(newest, told)?;
        if number >= awaited {
            return Ok(());
        }
        thread::yield_now();
    }
    Err(NoMemory)
}

/// One for each viewer.
fn lookers_of(alloc: Global, viewers: Vec<Viewer>, first: &Notice) -> Result<Vec<Looker>, Stopped>
    requires { All (λ v. v ≡ first.now) viewers.items }
    ensures { IfOk result (λ made. All (λ l. l.viewer.list ≡ first.now.list) made.items) }
{
    let mut lookers = Vec::new(alloc);
    for viewer in viewers {
        lookers.push(Looker::new(alloc, viewer))?;
    }
    Ok(lookers)
}

/// Adds what viewers saw while one worker planned the book.
pub fn watch_lookers<R: Threads + Wait + Sync>(
    rt: &R,
    alloc: Global,
    book: Book,
    text: &mut String,
) -> Result<(), Stopped>
    requires { book ≡ first_parts book.task }
{
    let (publisher, viewers, first) = begun(rt, alloc, &book, LOOKERS)?;
    let Ok(lookers) = lookers_of(alloc, viewers, &first) else {
        publisher.close(rt);
        return Err(Stopped);
    };
    let pace = Pace::new(LOOKS_FOR_EACH);
    let (lookers, end, book) = ended_beside::<Brand, Looker, R>(
        rt, alloc, book, publisher, first, lookers, &pace,
    )?;
    let (backups, kept) = (pace.backups(), pace.was_kept());
    writeln!(
        text,
        "{backups} backups, each after the steps before it: {kept}"
    )?;
    push_lookers(text, lookers, &end, &book)
}

/// Adds a line for each, which then learns the end.
fn push_lookers(
    text: &mut String,
    lookers: Besides<Looker>,
    end: &Notice,
    book: &Book,
) -> Result<(), Stopped>
    requires { All (λ l. l.viewer.list ≡ end.now.list) lookers }
{
    for looker in lookers.into_vec() {
        push_looker(text, looker, end, book)?;
    }
    Ok(())
}

fn push_looker(text: &mut String, looker: Looker, end: &Notice, book: &Book) -> Result<(), Stopped>
    requires { looker.viewer.list ≡ end.now.list }
{
    let Looker { viewer, left, seen } = looker;
    let (mut viewer, mut seen) = (viewer, seen);
    let unended = seen.tally();
    viewer.learn(end)?;
    let last = viewer.latest()?;
    let (looks, number) = (LOOKS.saturating_sub(left), last.number());
    seen.note(last, end.number())?;
    let (as_new, often) = (!seen.tally().fell, unended.rises >= RISES);
    let published = seen.is_of(book);
    writeln!(
        text,
        "{looks} looks, each as new as those before: {as_new}, each at a published edition: {published}, newer than told 100 times or more: {often}, at the end: {number}"
    )?;
    Ok(())
}
