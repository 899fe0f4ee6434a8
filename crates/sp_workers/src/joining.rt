//! Planning by several threads.

ghost use Rattle.std.specs.Prelude.{◌≡◌, ◌+◌, ◌%◌, ◌^◌, ◌<◌, [], All, ℕ, length, slice_index_or, vec_len};
ghost use Rattle.sp_core.specs.Books.{IsBook};
ghost use Rattle.sp_publish.specs.Published.{IsOf};
ghost use Rattle.sp_workers.specs.Shared.{AreShared, IsBeginning};
ghost use Rattle.sp_workers.specs.Later.{StandsLater};

use crate::besides::serve_all;
use crate::gate::Gate;
use crate::locked::Locked;
use crate::pruner::prune;
use crate::worker::work;
use sp_core::Book;
use sp_model::Sequence;
use sp_publish::{Beside, ListName, Notice, Publisher};
use std::alloc::Global;
use std::sync::{Mutex, Wait};
use std::thread;
use std::thread::Threads;

/// Work that was served beside the planners.
pub type Besides<B> = Sequence<B>;

/// What comes out once all threads have ended.
pub struct Joined<B> {
    pub book: Book,
    pub publisher: Publisher,
    pub besides: Besides<B>,
}

/// Who is started.
#[derive(Clone, Copy, Drop)]
struct Crew {
    workers: u64,
    seed: u64,
    pruning: bool,
}

/// Plans a book without events by so many workers beside each other, 1 to 64 of them, with a pruner where the options of its task
/// say so, while the steps of each of the besides are made in a thread of its own. Worker j, counted from 1, picks beliefs by the
/// words of the task's seed plus 1 plus j. A worker that can't be started is run by the caller. Where memory runs out the run may
/// not be over at the end: `finish` and `publish_rest` go on from there. May wait.
pub fn plan_beside<
    N: ListName + Send + Sync,
    G: Gate + Sync,
    B: Beside + Send,
    R: Threads + Wait + Sync,
>(
    rt: &R,
    alloc: Global,
    book: Book,
    publisher: Publisher,
    first: Notice,
    besides: Vec<B>,
    workers: u64,
    gate: &G,
) -> Joined<B>
    requires opening { book.history ≡ [] }
    requires beginning { IsBeginning publisher book }
    requires named { IsOf N.list N.first publisher }
    requires first { first.list ≡ N.list }
    requires besides { All (λ b. (B.known b).list ≡ N.list) besides.items }
    ensures task { result.book.task ≡ book.task }
    ensures known { IsBook result.book }
    ensures beginning { IsBeginning result.publisher result.book }
    ensures named { IsOf N.list N.first result.publisher }
    ensures list { result.publisher.list ≡ publisher.list }
    ensures count { length result.besides ≡ vec_len besides }
    ensures later { (i : ℕ) (d : B) → i < vec_len besides → StandsLater B.work B.known B.steps (slice_index_or besides.items i d) (slice_index_or result.besides i d) }
{
    // what is known of each book
    let _ = book.task();
    let crew = crew_for(&book, workers);
    let locked = Mutex::new(Locked::<N, &R>::new(book, publisher, workers, rt));
    let besides = run(rt, alloc, &locked, &first, besides, crew, gate);
    let (book, publisher) = locked.into_inner().into_parts();
    Joined {
        book,
        publisher,
        besides: Sequence::from_vec(besides),
    }
}

/// So many workers, with the seed of a book's task and a pruner as its options say.
fn crew_for(book: &Book, workers: u64) -> Crew
    ensures workers { result.workers ≡ workers }
    ensures seed { result.seed ≡ book.now.task.options.seed }
    ensures pruning { result.pruning ≡ book.now.task.options.prune }
{
    let options = book.task().options();
    Crew {
        workers,
        seed: options.seed,
        pruning: options.prune,
    }
}

/// Starts all threads, and waits for them.
fn run<N: ListName + Send + Sync, G: Gate + Sync, B: Beside + Send, R: Threads + Wait + Sync>(
    rt: &R,
    alloc: Global,
    locked: &Mutex<Locked<N, &R>>,
    first: &Notice,
    besides: Vec<B>,
    crew: Crew,
    gate: &G,
) -> Vec<B>
    requires first { first.now.list ≡ N.list }
    requires lists { All (λ b. (B.known b).list ≡ N.list) besides.items }
    ensures count { vec_len result ≡ vec_len besides }
    ensures later { (i : ℕ) (d : B) → i < vec_len besides → StandsLater B.work B.known B.steps (slice_index_or besides.items i d) (slice_index_or result.items i d) }
{
    let Crew {
        workers,
        seed,
        pruning,
    } = crew;
    thread::scope(
        thread::scope_env(),
        rt,
        move |scope| -> Vec<B>
            requires { (first.now.list ≡ N.list) × All (λ b. (B.known b).list ≡ N.list) besides.items }
            ensures count { vec_len result ≡ vec_len besides }
            ensures later { (i : ℕ) (d : B) → i < vec_len besides → StandsLater B.work B.known B.steps (slice_index_or besides.items i d) (slice_index_or result.items i d) }
        {
            let mut besides = besides;
            let mut started: u64 = 0;
            for number in 0..workers {
                let own = seed_for(seed, number);
                if started == number
                    && scope
                        .spawn(move || work(rt, alloc, locked, gate, own))
                        .is_ok()
                {
                    started = number + 1;
                }
            }
            if pruning {
                let _pruner = scope.spawn(move || prune(rt, alloc, locked));
            }
            serve_all(rt, locked, first, gate, besides.as_mut_slice());
            for number in started..workers {
                work(rt, alloc, locked, gate, seed_for(seed, number));
            }
            besides
        },
    )
}

/// The seed of the worker before which so many others stand: the task's seed plus 1, plus the worker's number counted from 1.
fn seed_for(seed: u64, before: u64) -> u64
    ensures { result ≡ (seed + 2 + before) % 2 ^ 64 }
{
    seed.wrapping_add(2).wrapping_add(before)
}
