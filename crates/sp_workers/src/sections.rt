//! What is done to the book while the lock is held.

ghost use Rattle.std.specs.Prelude.{◌≡◌, ◌<◌, ◌⊎◌, IfOk, IfSome, MatchBool, MatchOption, OnErr, Some, false, true};
ghost use Rattle.std.specs.Arc.{arc_value};
ghost use Rattle.sp_core.specs.Books.{IsBook, state_of};
ghost use Rattle.sp_theory.specs.OneThread.{picked};
ghost use Rattle.sp_value.specs.Tasks.{task_of};
ghost use Rattle.sp_core.specs.Marks.{marks_of};
ghost use Rattle.sp_core.specs.Pruning.{AreDominatedIn, IsPruned};
ghost use Rattle.sp_core.specs.Settling.{AreSampledWorths, IsOurs, IsSettled};
ghost use Rattle.sp_value.specs.Editions.{EditionParts};
ghost use Rattle.sp_publish.specs.Published.{newest_in};
ghost use Rattle.sp_planner.specs.Turns.{IsLaterBook};
ghost use Rattle.sp_workers.specs.Sections.{HasSameEvents, IsPrunedFor, IsSettledAnew, IsSettledFor, IsWorkOf};

use sp_backup::{Projections, point_backup};
use sp_core::{Book, Pruned, Settled};
use sp_dd::{NoMemory, Pairs};
use sp_prune::dominated;
use sp_publish::Notice;
use sp_value::{Candidate, Edition};
use std::alloc::Global;
use std::sync::Arc;

/// A backup to be made.
#[derive(Drop)]
pub(crate) struct Work {
    /// The number of the sampled belief.
    pub belief: u64,
    /// What was seen of the list. The backup is made on its newest edition.
    pub seen: Notice,
}

/// What the pruner finds.
#[derive(Drop)]
pub(crate) enum Look {
    /// The run is over, or no worker is at work.
    Over,
    /// The latest edition was examined.
    Examined,
    /// It wasn't. It is the newest one of the list.
    Newer(Notice),
}

/// Takes the belief to back up next, on the newest edition that was seen; nothing where the run is over.
pub(crate) fn take_work(book: &mut Book, seen: Notice, word: u64) -> Option<Work>
    requires { seen.editions ≡ book.old.editions }
    ensures known { IsBook book.new }
    ensures same { HasSameEvents book.old book.new }
    ensures work { MatchOption result ((state_of book.old).done ≡ true) (λ w. IsWorkOf book.old.task w.belief w.seen) }
    ensures seen { IfSome result (λ w. w.seen ≡ seen) }
    ensures picked { IfSome result (λ w. w.belief ≡ picked (task_of book.old.task) (state_of book.old) (marks_of book.old.taken) word) }
{
    // what is known of each book, here and afterwards
    let _ = book.task();
    let picked = book.next_work(word);
    let _ = book.task();
    let belief = picked?;
    Some(Work { belief, seen })
}

/// Whether the newest edition that was seen of a list is one of the book's, all of which are published in it. Nothing is compared
/// but two numbers.
fn is_ours(book: &Book, published: &Notice, seen: &Notice) -> bool
    requires list { published.now.list ≡ seen.now.list }
    requires whole { published.now.editions ≡ book.now.editions }
    ensures { (e : EditionParts) → newest_in seen.now ≡ Some e → MatchBool result (IsOurs book.now e) (¬ IsOurs book.now e) }
{
    // what is known of each book, of each list, and of two notices of one list
    let _ = book.task();
    let _ = seen.edition();
    let _ = seen.is_before(published);
    seen.number() <= published.number()
}

/// Settles a candidate of the book's task that was made on the newest edition seen, and weighed at the sampled beliefs. Where that
/// isn't one of the book's editions, the backup at its belief is made anew on the latest one.
pub(crate) fn settle_on(
    alloc: Global,
    book: &mut Book,
    published: &Notice,
    seen: &Notice,
    candidate: Candidate,
    worths: &[i128],
    kept: &mut Projections,
) -> Result<Settled, NoMemory>
    requires list { published.now.list ≡ seen.now.list }
    requires whole { published.now.editions ≡ book.old.editions }
    requires base { newest_in seen.now ≡ Some candidate.base }
    requires task { candidate.base.task ≡ book.old.task }
    requires worths { AreSampledWorths book.old.task candidate.vector worths.now }
    ensures known { IsBook book.new }
    ensures later { IsLaterBook book.old book.new }
    ensures ok { IfOk result (λ answer. IsSettledFor book.old candidate answer book.new) }
    ensures unchanged { OnErr result (book.new ≡ book.old) }
{
    if is_ours(book, published, seen) {
        return settle_weighed(book, candidate, worths);
    }
    let belief = candidate.belief();
    // what is known of each candidate
    let _ = candidate.vector();
    let answer = settle_anew(alloc, book, belief, kept)?;
    Ok(answer)
}

/// Settles a candidate that was made on an edition of the book, and weighed at the sampled beliefs.
fn settle_weighed(
    book: &mut Book,
    candidate: Candidate,
    worths: &[i128],
) -> Result<Settled, NoMemory>
    requires ours { IsOurs book.old candidate.base }
    requires worths { AreSampledWorths book.old.task candidate.vector worths.now }
    ensures known { IsBook book.new }
    ensures later { IsLaterBook book.old book.new }
    ensures ok { IfOk result (λ answer. IsSettled book.old candidate answer book.new) }
    ensures unchanged { OnErr result (book.new ≡ book.old) }
{
    let settled = book.settle_weighed(candidate, worths);
    // what is known of each book
    let _ = book.task();
    match settled {
        Ok(answer) => Ok(answer),
        Err(_) => Err(NoMemory),
    }
}

/// Settles a candidate that was made on an edition of the book.
fn settle_ours(book: &mut Book, candidate: Candidate) -> Result<Settled, NoMemory>
    requires { IsOurs book.old candidate.base }
    ensures known { IsBook book.new }
    ensures later { IsLaterBook book.old book.new }
    ensures ok { IfOk result (λ answer. IsSettled book.old candidate answer book.new) }
    ensures unchanged { OnErr result (book.new ≡ book.old) }
{
    let settled = book.settle_ours(candidate);
    // what is known of each book
    let _ = book.task();
    match settled {
        Ok(answer) => Ok(answer),
        Err(_) => Err(NoMemory),
    }
}

/// Makes the backup at a belief on the latest edition, and settles it.
fn settle_anew(
    alloc: Global,
    book: &mut Book,
    belief: u64,
    kept: &mut Projections,
) -> Result<Settled, NoMemory>
    requires { belief < book.old.task.options.beliefs }
    ensures known { IsBook book.new }
    ensures later { IsLaterBook book.old book.new }
    ensures ok { IfOk result (λ answer. IsSettledAnew book.old belief answer book.new) }
    ensures unchanged { OnErr result (book.new ≡ book.old) }
{
    // what is known of each book
    let _ = book.task();
    let base = Arc::try_clone(book.latest())?;
    let candidate = point_backup(alloc, &base, belief, kept)?;
    let answer = settle_ours(book, candidate)?;
    Ok(answer)
}

/// Prunes pairs of members of the newest edition seen; nothing where that isn't one of the book's editions.
pub(crate) fn prune_on(
    book: &mut Book,
    published: &Notice,
    seen: &Notice,
    base: &Arc<Edition>,
    pairs: &Pairs,
) -> Result<Pruned, NoMemory>
    requires list { published.now.list ≡ seen.now.list }
    requires whole { published.now.editions ≡ book.old.editions }
    requires base { newest_in seen.now ≡ Some (arc_value base.now) }
    requires pairs { AreDominatedIn (arc_value base.now) pairs.now }
    ensures known { IsBook book.new }
    ensures later { IsLaterBook book.old book.new }
    ensures ok { IfOk result (λ answer. IsPrunedFor book.old (arc_value base.now) pairs.now answer book.new) }
    ensures unchanged { OnErr result (book.new ≡ book.old) }
{
    if is_ours(book, published, seen) {
        return prune_ours(book, base, pairs);
    }
    // what is known of each book
    let _ = book.task();
    Ok(Pruned::Nothing)
}

/// Prunes pairs of members of an edition of the book.
fn prune_ours(book: &mut Book, base: &Arc<Edition>, pairs: &Pairs) -> Result<Pruned, NoMemory>
    requires ours { IsOurs book.old (arc_value base.now) }
    requires pairs { AreDominatedIn (arc_value base.now) pairs.now }
    ensures known { IsBook book.new }
    ensures later { IsLaterBook book.old book.new }
    ensures ok { IfOk result (λ answer. IsPruned book.old (arc_value base.now) pairs.now answer book.new) }
    ensures unchanged { OnErr result (book.new ≡ book.old) }
{
    let pruned = book.prune_ours(base, pairs);
    // what is known of each book
    let _ = book.task();
    match pruned {
        Ok(answer) => Ok(answer),
        Err(_) => Err(NoMemory),
    }
}

/// The pairs of an edition that may be pruned.
pub(crate) fn dominated_in(alloc: Global, base: &Arc<Edition>) -> Result<Pairs, NoMemory>
    ensures { IfOk result (λ pairs. AreDominatedIn (arc_value base.now) pairs) }
{
    // what is known of each edition
    let _ = base.members();
    let pairs = dominated(alloc, base)?;
    Ok(pairs)
}

/// Whether there is nothing more to prune, with so many workers at work.
pub(crate) fn is_over(book: &Book, working: u64) -> bool
    ensures { MatchBool result (((state_of book.now).done ≡ true) ⊎ (working ≡ 0)) (((state_of book.now).done ≡ false) × (0 < working)) }
{
    book.is_done() || working == 0
}
