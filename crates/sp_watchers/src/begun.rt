//! Books before any event, and lists of their editions.

ghost use Rattle.std.specs.Prelude.{◌≡◌, ◌+◌, ◌≤◌, All, IfOk, OnOk, length};
ghost use Rattle.sp_core.specs.Opening.{first_parts};
ghost use Rattle.sp_planner.specs.Planned.{AreOptions};
ghost use Rattle.sp_workers.specs.Shared.{IsBeginning};

use crate::stopped::Stopped;
use sp_choose::Uniform;
use sp_core::Book;
use sp_model::Model;
use sp_planner::open_book;
use sp_publish::{Notice, Publisher, Viewer, begin};
use sp_reader::read_model;
use sp_value::{Explore, Options};
use std::alloc::Global;
use std::sync::{Arc, Wait};

/// The model of a text.
fn model_of(alloc: Global, source: &[u8]) -> Result<Model, Stopped> {
    read_model(alloc, source).map_err(|_| Stopped)
}

/// One sampled belief, and so many stages.
fn options_with(stages: u64) -> Options
    requires { (1 ≤ stages) × (stages ≤ 1000) }
    ensures { AreOptions result }
{
    Options {
        beliefs: 1,
        depth: 1,
        stages,
        seed: 7,
        explore: Explore::Uniform,
        prune: false,
    }
}

/// The book of a model's text before any event, with one sampled belief and so many stages.
pub fn opened(alloc: Global, source: &[u8], stages: u64) -> Result<Book, Stopped>
    requires { (1 ≤ stages) × (stages ≤ 1000) }
    ensures { IfOk result (λ b. b ≡ first_parts b.task) }
{
    let model = model_of(alloc, source)?;
    let book = open_book(
        alloc,
        model,
        options_with(stages),
        Box::new(alloc, Uniform)?,
    )?;
    Ok(book)
}

/// The list of a book's editions, of which edition 0 is published, with so many viewers and its notice.
pub fn begun<R: Wait>(
    rt: &R,
    alloc: Global,
    book: &Book,
    viewers: u64,
) -> Result<(Publisher, Vec<Viewer>, Notice), Stopped>
    requires { (1 ≤ viewers) × (viewers ≤ 8) }
    ensures beginning { IfOk result (λ made. IsBeginning made.0 book.now) }
    ensures one { IfOk result (λ made. length made.0.editions ≡ 1) }
    ensures viewers { IfOk result (λ made. All (λ v. v ≡ made.2) made.1.items) }
    ensures notice { IfOk result (λ made. made.2 ≡ made.0) }
{
    // what is known of each book
    let _ = book.task();
    let Some(edition) = book.edition(0) else {
        return Err(Stopped);
    };
    let first = Arc::try_clone(edition)?;
    let begun = begin(rt, alloc, first, viewers)?;
    Ok(begun)
}

/// Publishes the book's edition of that number, which comes next.
pub fn publish_edition<R: Wait>(
    rt: &R,
    book: &Book,
    publisher: &mut Publisher,
    number: u64,
) -> Result<Notice, Stopped>
    requires beginning { IsBeginning publisher.old book.now }
    requires next { length publisher.old.editions ≡ number }
    ensures beginning { OnOk result (IsBeginning publisher.new book.now) }
    ensures more { OnOk result (length publisher.new.editions ≡ number + 1) }
    ensures list { OnOk result (publisher.new.list ≡ publisher.old.list) }
    ensures told { IfOk result (λ told. told.list ≡ publisher.old.list) }
{
    // what is known of each book
    let _ = book.task();
    let Some(edition) = book.edition(number) else {
        return Err(Stopped);
    };
    let next = Arc::try_clone(edition)?;
    let told = publisher.publish(rt, next)?;
    Ok(told)
}
