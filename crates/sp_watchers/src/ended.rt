//! Planning by one worker to the end of the list, beside other work.

ghost use Rattle.std.specs.Prelude.{◌≡◌, [], true, All, IfOk};
ghost use Rattle.sp_publish.specs.Published.{IsOf};
ghost use Rattle.sp_workers.specs.Shared.{IsBeginning};

use crate::pace::Pace;
use crate::stopped::Stopped;
use sp_core::Book;
use sp_publish::{Beside, ListName, Notice, Publisher};
use sp_workers::{Besides, Joined, finish, plan_beside, publish_rest};
use std::alloc::Global;
use std::sync::Wait;
use std::thread::Threads;

/// Plans a book by one worker while the steps of the besides are made, publishes what is missing and the end, and gives the besides
/// with the notice of the end and the book.
pub fn ended_beside<N: ListName + Send + Sync, B: Beside + Send, R: Threads + Wait + Sync>(
    rt: &R,
    alloc: Global,
    book: Book,
    publisher: Publisher,
    first: Notice,
    besides: Vec<B>,
    pace: &Pace,
) -> Result<(Besides<B>, Notice, Book), Stopped>
    requires opening { book.history ≡ [] }
    requires beginning { IsBeginning publisher book }
    requires named { IsOf N.list N.first publisher }
    requires first { first.list ≡ N.list }
    requires besides { All (λ b. (B.known b).list ≡ N.list) besides.items }
    ensures end { IfOk result (λ made. (made.1.list ≡ N.list) × (made.1.ended ≡ true)) }
    ensures besides { IfOk result (λ made. All (λ b. (B.known b).list ≡ N.list) made.0) }
{
    let Joined {
        book,
        publisher,
        besides,
    } = plan_beside::<N, Pace, B, R>(rt, alloc, book, publisher, first, besides, 1, pace);
    match ended(rt, alloc, book, publisher) {
        Ok((end, book)) => Ok((besides, end, book)),
        Err(stopped) => Err(stopped),
    }
}

/// Plans what is left, publishes it and the end, and closes the publisher.
fn ended<R: Wait>(
    rt: &R,
    alloc: Global,
    book: Book,
    publisher: Publisher,
) -> Result<(Notice, Book), Stopped>
    requires { IsBeginning publisher book }
    ensures { IfOk result (λ made. (made.0.list ≡ publisher.list) × (made.0.ended ≡ true)) }
{
    let mut book = book;
    let mut publisher = publisher;
    let end = end_of(rt, alloc, &mut book, &mut publisher);
    publisher.close(rt);
    let end = end?;
    Ok((end, book))
}

/// Plans what is left, and publishes it and the end.
fn end_of<R: Wait>(
    rt: &R,
    alloc: Global,
    book: &mut Book,
    publisher: &mut Publisher,
) -> Result<Notice, Stopped>
    requires { IsBeginning publisher.old book.old }
    ensures { IfOk result (λ end. (end.list ≡ publisher.old.list) × (end.ended ≡ true)) }
{
    finish(alloc, book)?;
    let end = publish_rest(rt, book, publisher)?;
    Ok(end)
}
