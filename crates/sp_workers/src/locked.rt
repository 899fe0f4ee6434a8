//! What lies under the lock.

ghost use Rattle.std.specs.Prelude.{◌≡◌, ◌-◌, IfOk, IfSome, MatchOption, OnErr, OnOk, Some, true};
ghost use Rattle.std.specs.Arc.{arc_value};
ghost use Rattle.sp_core.specs.Books.{state_of};
ghost use Rattle.sp_theory.specs.OneThread.{picked};
ghost use Rattle.sp_value.specs.Tasks.{task_of};
ghost use Rattle.sp_core.specs.Marks.{marks_of};
ghost use Rattle.sp_core.specs.Pruning.{AreDominatedIn};
ghost use Rattle.sp_core.specs.Settling.{AreSampledWorths};
ghost use Rattle.sp_publish.specs.Published.{ListGoesOn, newest_in};
ghost use Rattle.sp_workers.specs.Shared.{AreShared, IsBeginning};
ghost use Rattle.sp_workers.specs.Sections.{HasSameEvents, IsLook, IsPrunedFor, IsSettledFor, IsWorkOf, MayPrune, MaySettle};

use crate::publishing::publish_all;
use crate::sections::{Look, Work, is_over, prune_on, settle_on, take_work};
use sp_backup::Projections;
use sp_core::{Book, Pruned, Settled};
use sp_dd::{NoMemory, Pairs};
use sp_ledger::ListedTask;
use sp_publish::{ListName, Notice, Publisher};
use sp_value::{Candidate, Edition};
use std::alloc::Global;
use std::marker::{Model, PhantomData};
use std::sync::{Arc, Wait};

/// A publisher that is closed where it is dropped.
struct Held<R: Wait + Drop> {
    publisher: Publisher,
    rt: R,
}

impl<R: Wait + Drop> Held<R> {
    fn into_publisher(self) -> Publisher
        ensures { result ≡ self.publisher }
    {
        let Self { publisher, rt: _rt } = self;
        publisher
    }

    /// Publishes the editions that aren't published yet.
    fn publish_all(&mut self, book: &Book) -> Result<(), NoMemory>
        requires { IsBeginning self.old.publisher book.now }
        ensures beginning { IsBeginning self.new.publisher book.now }
        ensures on { ListGoesOn self.old.publisher self.new.publisher }
        ensures whole { OnOk result (self.new.publisher.editions ≡ book.now.editions) }
    {
        publish_all(&self.rt, book, &mut self.publisher)
    }
}

impl<R: Wait + Drop> Drop for Held<R> {
    fn drop(self) {
        let Self { publisher, rt } = self;
        publisher.close(&rt);
    }
}

/// What lies under the lock: the book, the publisher of its editions, and how many workers are at work. Its type keeps what
/// `AreShared` says, for the list that `N` names.
pub(crate) struct Locked<N: ListName, R: Wait + Drop> {
    book: Book,
    held: Held<R>,
    working: u64,
    of: PhantomData<N>,
}

impl<N: ListName, R: Wait + Drop> Model for Locked<N, R> {
    ghost use Rattle.sp_workers.specs.Shared.{AreShared, Shared};

    ghost Value = { Shared };

    ghost view = { λ l. record { book = l.book; list = l.held.publisher; working = l.working } };

    ghost invariant = { λ l. AreShared N.list N.first l.book l.held.publisher };
}

impl<N: ListName, R: Wait + Drop> Locked<N, R> {
    pub fn new(book: Book, publisher: Publisher, working: u64, rt: R) -> Locked<N, R>
        requires { AreShared N.list N.first book publisher }
        ensures { result ≡ record { book = book; list = publisher; working = working } }
    {
        Locked {
            book,
            held: Held { publisher, rt },
            working,
            of: PhantomData,
        }
    }

    /// Book and publisher, taken out.
    pub fn into_parts(self) -> (Book, Publisher)
        ensures parts { (result.0 ≡ self.book) × (result.1 ≡ self.list) }
        ensures known { AreShared N.list N.first result.0 result.1 }
    {
        let Locked {
            book,
            held,
            working: _working,
            of: _of,
        } = self;
        (book, held.into_publisher())
    }

    /// Takes the belief to back up next, and a notice of the latest edition; nothing where the run is over. Publishes each edition of
    /// the book that isn't published yet.
    pub fn take(&mut self, word: u64) -> Result<Option<Work>, NoMemory>
        ensures work { IfOk result (λ taken. MatchOption taken ((state_of self.old.book).done ≡ true) (λ w. IsWorkOf N.first.task w.belief w.seen)) }
        ensures latest { IfOk result (λ taken. IfSome taken (λ w. w.seen.editions ≡ self.old.book.editions)) }
        ensures list { IfOk result (λ taken. IfSome taken (λ w. w.seen.list ≡ N.list)) }
        ensures picked { IfOk result (λ taken. IfSome taken (λ w. w.belief ≡ picked (task_of self.old.book.task) (state_of self.old.book) (marks_of self.old.book.taken) word)) }
        ensures unchanged { OnErr result (self.new.book ≡ self.old.book) }
        ensures same { HasSameEvents self.old.book self.new.book }
        ensures on { ListGoesOn self.old.list self.new.list }
        ensures working { self.new.working ≡ self.old.working }
    {
        let seen = self.latest()?;
        Ok(self.take_alone(seen, word))
    }

    fn take_alone(&mut self, seen: Notice, word: u64) -> Option<Work>
        requires { seen.editions ≡ self.old.book.editions }
        ensures work { MatchOption result ((state_of self.old.book).done ≡ true) (λ w. IsWorkOf N.first.task w.belief w.seen) }
        ensures seen { IfSome result (λ w. w.seen ≡ seen) }
        ensures picked { IfSome result (λ w. w.belief ≡ picked (task_of self.old.book.task) (state_of self.old.book) (marks_of self.old.book.taken) word) }
        ensures same { HasSameEvents self.old.book self.new.book }
        ensures list { self.new.list ≡ self.old.list }
        ensures working { self.new.working ≡ self.old.working }
    {
        take_work(&mut self.book, seen, word)
    }

    /// The task with the lists by which vectors are weighed.
    pub fn listed_task(&self) -> Result<ListedTask, NoMemory>
        ensures { IfOk result (λ l. l ≡ N.first.task) }
    {
        self.book.listed_task().shared()
    }

    /// Settles a candidate that was made on the newest edition seen, with what its vector is worth at the sampled beliefs, and
    /// publishes each edition of the book that isn't published yet, before and after.
    pub fn settle(
        &mut self,
        alloc: Global,
        seen: &Notice,
        candidate: Candidate,
        worths: &[i128],
        kept: &mut Projections,
    ) -> Result<Settled, NoMemory>
        requires list { seen.now.list ≡ N.list }
        requires base { newest_in seen.now ≡ Some candidate.base }
        requires task { candidate.base.task ≡ N.first.task }
        requires worths { AreSampledWorths N.first.task candidate.vector worths.now }
        ensures ok { IfOk result (λ answer. IsSettledFor self.old.book candidate answer self.new.book) }
        ensures published { OnOk result (self.new.list.editions ≡ self.new.book.editions) }
        ensures event { MaySettle self.old.book candidate self.new.book }
        ensures on { ListGoesOn self.old.list self.new.list }
        ensures working { self.new.working ≡ self.old.working }
    {
        self.publish()?;
        let answer = self.settle_alone(alloc, seen, candidate, worths, kept)?;
        self.publish()?;
        Ok(answer)
    }

    fn settle_alone(
        &mut self,
        alloc: Global,
        seen: &Notice,
        candidate: Candidate,
        worths: &[i128],
        kept: &mut Projections,
    ) -> Result<Settled, NoMemory>
        requires whole { self.old.list.editions ≡ self.old.book.editions }
        requires list { seen.now.list ≡ N.list }
        requires base { newest_in seen.now ≡ Some candidate.base }
        requires task { candidate.base.task ≡ N.first.task }
        requires worths { AreSampledWorths N.first.task candidate.vector worths.now }
        ensures ok { IfOk result (λ answer. IsSettledFor self.old.book candidate answer self.new.book) }
        ensures err { OnErr result (self.new.book ≡ self.old.book) }
        ensures list { self.new.list ≡ self.old.list }
        ensures working { self.new.working ≡ self.old.working }
    {
        settle_on(
            alloc,
            &mut self.book,
            self.held.publisher.newest(),
            seen,
            candidate,
            worths,
            kept,
        )
    }

    /// Prunes pairs of members of the newest edition seen, and publishes each edition of the book that isn't published yet, before
    /// and after.
    pub fn prune(
        &mut self,
        seen: &Notice,
        base: &Arc<Edition>,
        pairs: &Pairs,
    ) -> Result<Pruned, NoMemory>
        requires list { seen.now.list ≡ N.list }
        requires base { newest_in seen.now ≡ Some (arc_value base.now) }
        requires pairs { AreDominatedIn (arc_value base.now) pairs.now }
        ensures ok { IfOk result (λ answer. IsPrunedFor self.old.book (arc_value base.now) pairs.now answer self.new.book) }
        ensures published { OnOk result (self.new.list.editions ≡ self.new.book.editions) }
        ensures event { MayPrune self.old.book (arc_value base.now) pairs.now self.new.book }
        ensures on { ListGoesOn self.old.list self.new.list }
        ensures working { self.new.working ≡ self.old.working }
    {
        self.publish()?;
        let answer = self.prune_alone(seen, base, pairs)?;
        self.publish()?;
        Ok(answer)
    }

    fn prune_alone(
        &mut self,
        seen: &Notice,
        base: &Arc<Edition>,
        pairs: &Pairs,
    ) -> Result<Pruned, NoMemory>
        requires whole { self.old.list.editions ≡ self.old.book.editions }
        requires list { seen.now.list ≡ N.list }
        requires base { newest_in seen.now ≡ Some (arc_value base.now) }
        requires pairs { AreDominatedIn (arc_value base.now) pairs.now }
        ensures ok { IfOk result (λ answer. IsPrunedFor self.old.book (arc_value base.now) pairs.now answer self.new.book) }
        ensures err { OnErr result (self.new.book ≡ self.old.book) }
        ensures list { self.new.list ≡ self.old.list }
        ensures working { self.new.working ≡ self.old.working }
    {
        prune_on(
            &mut self.book,
            self.held.publisher.newest(),
            seen,
            base,
            pairs,
        )
    }

    /// Publishes the editions that aren't published yet.
    fn publish(&mut self) -> Result<(), NoMemory>
        ensures book { self.new.book ≡ self.old.book }
        ensures working { self.new.working ≡ self.old.working }
        ensures on { ListGoesOn self.old.list self.new.list }
        ensures whole { OnOk result (self.new.list.editions ≡ self.new.book.editions) }
    {
        self.held.publish_all(&self.book)
    }

    /// Looks for an edition that wasn't examined, of which this was the last number. Where there is one, each edition of the book that
    /// isn't published yet is published.
    pub fn look(&mut self, examined: u64) -> Result<Look, NoMemory>
        ensures look { IfOk result (λ look. IsLook N.list self.old.book self.old.working examined look) }
        ensures book { self.new.book ≡ self.old.book }
        ensures on { ListGoesOn self.old.list self.new.list }
        ensures working { self.new.working ≡ self.old.working }
    {
        if is_over(&self.book, self.working) {
            return Ok(Look::Over);
        }
        if self.book.count() - 1 <= examined {
            return Ok(Look::Examined);
        }
        let seen = self.latest()?;
        Ok(Look::Newer(seen))
    }

    /// A notice of the latest edition of the book. Publishes each of its editions that isn't published yet.
    fn latest(&mut self) -> Result<Notice, NoMemory>
        ensures latest { IfOk result (λ n. n.editions ≡ self.old.book.editions) }
        ensures named { IfOk result (λ n. n.list ≡ N.list) }
        ensures book { self.new.book ≡ self.old.book }
        ensures on { ListGoesOn self.old.list self.new.list }
        ensures working { self.new.working ≡ self.old.working }
    {
        self.publish()?;
        self.tell()
    }

    /// One worker less is at work.
    pub fn stop(&mut self)
        ensures { self.new ≡ record self.old { working = self.old.working - 1 } }
    {
        self.working = self.working.saturating_sub(1);
    }

    /// A notice of what is published.
    pub fn tell(&self) -> Result<Notice, NoMemory>
        ensures told { IfOk result (λ n. n ≡ self.now.list) }
        ensures list { IfOk result (λ n. n.list ≡ N.list) }
    {
        self.held.publisher.tell()
    }
}
