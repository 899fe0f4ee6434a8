//! Books: which work comes next, what a settle answers, and what it leaves.

use crate::backups::push_candidate;
use crate::models::push_values;
use crate::numbers::push_ids;
use crate::plans::{push_events, run_of};
use crate::stopped::Stopped;
use sp_backup::{Projections, point_backup};
use sp_core::{Book, SettleError, Settled};
use sp_model::Model;
use sp_value::{Candidate, Edition, Member, Options};
use std::alloc::Global;
use std::sync::Arc;

/// A book before any event. Its beliefs are those of a plan of the same model with the same options.
pub fn begun(alloc: Global, model: Model, options: Options) -> Result<Book, Stopped> {
    let run = run_of(alloc, model, options)?;
    Ok(Book::begin(alloc, run.task)?)
}

/// The edition of a number, where one past the last stands for the last.
pub fn edition_of(book: &Book, number: u64) -> Result<Arc<Edition>, Stopped> {
    match book.edition(number.min(book.count() - 1)) {
        Some(edition) => Ok(Arc::try_clone(edition)?),
        None => Err(Stopped),
    }
}

/// The backup at a belief on an edition.
fn backup(
    alloc: Global,
    base: &Arc<Edition>,
    kept: &mut Projections,
    belief: u64,
) -> Result<Candidate, Stopped> {
    if belief >= base.task().options().beliefs {
        return Err(Stopped);
    }
    Ok(point_backup(alloc, base, belief, kept)?)
}

/// Tells the backup at a belief on an edition.
pub fn push_backup(
    text: &mut String,
    alloc: Global,
    base: &Arc<Edition>,
    kept: &mut Projections,
    belief: u64,
) -> Result<(), Stopped> {
    let candidate = backup(alloc, base, kept, belief)?;
    push_candidate(text, alloc, &candidate)
}

/// Settles the backup at a belief on an edition of this book or of another, and tells the backup, the answer, and what stands then.
pub fn settle(
    text: &mut String,
    alloc: Global,
    book: &mut Book,
    base: &Arc<Edition>,
    kept: &mut Projections,
    belief: u64,
) -> Result<(), Stopped> {
    let candidate = backup(alloc, base, kept, belief)?;
    push_candidate(text, alloc, &candidate)?;
    match book.settle(candidate) {
        Ok(answer) => push_answer(text, answer)?,
        Err(SettleError::NotOurs { candidate, kept }) => {
            push_not_ours(text, candidate.base(), base, kept.as_ref())?
        }
        Err(SettleError::NoMemory { candidate: _ }) => return Err(Stopped),
    }
    push_state(text, book)
}

fn push_answer(text: &mut String, answer: Settled) -> Result<(), Stopped> {
    match answer {
        Settled::Added(id) => Ok(writeln!(text, "added {id}")?),
        Settled::Kept(id) => Ok(writeln!(text, "kept {id}")?),
        Settled::Late => Ok(text.push_str("late\n")?),
        Settled::Over => Ok(text.push_str("over\n")?),
    }
}

/// Adds that a base isn't of this book: whether it came back as it was given, and the ids of the book's own edition of that number,
/// if there is one.
pub fn push_not_ours(
    text: &mut String,
    back: &Arc<Edition>,
    given: &Arc<Edition>,
    own: Option<&Arc<Edition>>,
) -> Result<(), Stopped> {
    let same = back.same(given);
    write!(text, "not ours, back {same}, own")?;
    match own {
        Some(own) => push_ids(text, own.members().as_slice()),
        None => Ok(text.push_str(" none\n")?),
    }
}

/// Adds how many records and editions there are, whether the run is over, and the ids of the latest edition.
pub fn push_state(text: &mut String, book: &Book) -> Result<(), Stopped> {
    let (records, editions, done) = (book.record_count(), book.count(), book.is_done());
    write!(
        text,
        "records {records} editions {editions} done {done} latest"
    )?;
    push_ids(text, book.latest().members().as_slice())
}

/// Adds a line for each member of an edition.
pub fn push_members(text: &mut String, alloc: Global, edition: &Edition) -> Result<(), Stopped> {
    for member in edition.members().as_slice() {
        push_member(text, alloc, edition.task().model(), member)?;
    }
    Ok(())
}

/// Adds the line of a member.
fn push_member(
    text: &mut String,
    alloc: Global,
    model: &Model,
    member: &Member,
) -> Result<(), Stopped> {
    let (id, action) = (member.id, member.action);
    write!(text, "member {id} {action}:")?;
    push_values(text, alloc, model, &member.vector)
}

/// Adds the number of the belief that a word picks.
pub fn push_pick(text: &mut String, book: &mut Book, word: u64) -> Result<(), Stopped> {
    match book.next_work(word) {
        Some(belief) => Ok(writeln!(text, "work {belief}")?),
        None => Ok(text.push_str("no work\n")?),
    }
}

/// Settles the backup at the belief that a word picks, on an edition so far behind the latest one.
pub fn turn(
    text: &mut String,
    alloc: Global,
    book: &mut Book,
    kept: &mut Projections,
    word: u64,
    back: u64,
) -> Result<(), Stopped> {
    match book.next_work(word) {
        Some(belief) => {
            let base = edition_of(book, (book.count() - 1).saturating_sub(back))?;
            settle(text, alloc, book, &base, kept, belief)
        }
        None => Ok(text.push_str("no work\n")?),
    }
}

/// Adds the events of the run of a finished book, or what stands in an unfinished one.
pub fn push_run(text: &mut String, book: Book) -> Result<(), Stopped> {
    match book.into_run() {
        Ok(run) => push_events(text, run.events.as_slice()),
        Err(book) => push_state(text, &book),
    }
}
