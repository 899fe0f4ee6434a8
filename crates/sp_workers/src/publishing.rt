//! Publishing the editions of a book.

ghost use Rattle.std.specs.Prelude.{◌≡◌, ◌+◌, ◌<◌, IfOk, OnErr, OnOk, length, true};
ghost use Rattle.sp_publish.specs.Published.{ListGoesOn};
ghost use Rattle.sp_workers.specs.Shared.{IsBeginning};

use sp_core::Book;
use sp_dd::NoMemory;
use sp_publish::{Notice, Publisher};
use std::sync::{Arc, Wait};

/// Publishes the editions of a book that aren't published yet, in order, and then the end, and gives the notice of the end.
/// Nothing asks whether the run is over. After an error the published list is a beginning of the book's editions, no shorter than
/// before. May wait.
pub fn publish_rest<R: Wait>(
    rt: &R,
    book: &Book,
    publisher: &mut Publisher,
) -> Result<Notice, NoMemory>
    requires { IsBeginning publisher.old book.now }
    ensures whole { OnOk result (publisher.new ≡ record publisher.old { editions = book.now.editions; ended = true }) }
    ensures told { IfOk result (λ n. n ≡ publisher.new) }
    ensures err { OnErr result (IsBeginning publisher.new book.now × ListGoesOn publisher.old publisher.new) }
{
    publish_all(rt, book, publisher)?;
    let told = publisher.end(rt)?;
    Ok(told)
}

/// Publishes the editions that aren't published yet, in order.
pub(crate) fn publish_all<R: Wait>(
    rt: &R,
    book: &Book,
    publisher: &mut Publisher,
) -> Result<(), NoMemory>
    requires { IsBeginning publisher.old book.now }
    ensures beginning { IsBeginning publisher.new book.now }
    ensures on { ListGoesOn publisher.old publisher.new }
    ensures whole { OnOk result (publisher.new.editions ≡ book.now.editions) }
{
    let published = publisher.newest().number();
    let last = book.count() - 1;
    for number in published..last {
        publish_edition(rt, book, publisher, number + 1)?;
    }
    Ok(())
}

/// Publishes the book's edition of that number, which comes next.
fn publish_edition<R: Wait>(
    rt: &R,
    book: &Book,
    publisher: &mut Publisher,
    number: u64,
) -> Result<(), NoMemory>
    requires beginning { IsBeginning publisher.old book.now }
    requires next { length publisher.old.editions ≡ number }
    requires within { number < length book.now.editions }
    ensures beginning { IsBeginning publisher.new book.now }
    ensures on { ListGoesOn publisher.old publisher.new }
    ensures more { OnOk result (length publisher.new.editions ≡ number + 1) }
{
    // what is known of each book
    let _ = book.task();
    let Some(edition) = book.edition(number) else {
        unreachable!()
    };
    let next = Arc::try_clone(edition)?;
    publisher.publish(rt, next)?;
    Ok(())
}
