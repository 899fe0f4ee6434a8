//! What a publisher and its viewers answer on one thread, call by call.

ghost use Rattle.std.specs.Prelude.{◌≡◌, All, IfOk, OnOk, false, length};
ghost use Rattle.sp_workers.specs.Shared.{IsBeginning};

use crate::begun::{begun, publish_edition};
use crate::rows::next_of;
use crate::stopped::Stopped;
use sp_core::Book;
use sp_publish::{Notice, Publisher, Viewer};
use sp_workers::finish;
use std::alloc::Global;
use std::sync::Wait;

/// Adds what each call answers while editions 1 and 2 of a book and the end are published, and once the publisher is closed.
pub fn push_calls<R: Wait>(
    rt: &R,
    alloc: Global,
    book: Book,
    text: &mut String,
) -> Result<(), Stopped> {
    let mut book = book;
    finish(alloc, &mut book)?;
    let (publisher, viewers, opening) = begun(rt, alloc, &book, 3)?;
    let mut publisher = publisher;
    let pushed = push_open(rt, text, &book, &mut publisher, viewers, &opening);
    publisher.close(rt);
    let (first, third) = pushed?;
    push_look(text, "the first viewer looks when it is closed", first)?;
    push_look(text, "the third viewer looks when it is closed", third)?;
    Ok(())
}

/// Adds what is answered until the publisher is closed, and gives a viewer that looked, and one that never did. The first viewer
/// only looks, and the second one learns before it looks.
fn push_open<R: Wait>(
    rt: &R,
    text: &mut String,
    book: &Book,
    publisher: &mut Publisher,
    viewers: Vec<Viewer>,
    opening: &Notice,
) -> Result<(Viewer, Viewer), Stopped>
    requires beginning { IsBeginning publisher.old book.now }
    requires one { length publisher.old.editions ≡ 1 }
    requires opening { opening.now.list ≡ publisher.old.list }
    requires viewers { All (λ v. v ≡ opening.now) viewers.items }
{
    let mut viewers = viewers;
    let first = next_of(&mut viewers, opening)?;
    let second = next_of(&mut viewers, opening)?;
    push_notice(text, "begin", opening)?;
    let first = push_look(text, "the first viewer looks", first)?;
    push_notice(text, "tell", &publisher.tell()?)?;
    let (first, second) = push_first(rt, text, book, publisher, first, second, opening)?;
    let (first, second) = push_second(rt, text, book, publisher, first, second)?;
    let first = push_end(rt, text, publisher, first, second)?;
    let third = next_of(&mut viewers, opening)?;
    Ok((first, third))
}

/// Adds what is answered when edition 1 is published.
fn push_first<R: Wait>(
    rt: &R,
    text: &mut String,
    book: &Book,
    publisher: &mut Publisher,
    first: Viewer,
    second: Viewer,
    opening: &Notice,
) -> Result<(Viewer, Viewer), Stopped>
    requires beginning { IsBeginning publisher.old book.now }
    requires one { length publisher.old.editions ≡ 1 }
    requires opening { opening.now.list ≡ publisher.old.list }
    requires second { second.list ≡ publisher.old.list }
    ensures beginning { OnOk result (IsBeginning publisher.new book.now) }
    ensures two { OnOk result (length publisher.new.editions ≡ 2) }
    ensures list { OnOk result (publisher.new.list ≡ publisher.old.list) }
    ensures second { IfOk result (λ made. made.1.list ≡ publisher.old.list) }
{
    let published = publish_edition(rt, book, publisher, 1)?;
    push_notice(text, "publish", &published)?;
    let first = push_look(text, "the first viewer looks", first)?;
    let told = publisher.tell()?;
    push_notice(text, "tell", &told)?;
    let second = push_learned(text, "the second viewer learns of it", second, &told)?;
    let second = push_look(text, "the second viewer looks", second)?;
    let second = push_learned(
        text,
        "the second viewer learns of edition 0",
        second,
        opening,
    )?;
    let second = push_look(text, "the second viewer looks", second)?;
    Ok((first, second))
}

/// Adds what is answered when edition 2 is published.
fn push_second<R: Wait>(
    rt: &R,
    text: &mut String,
    book: &Book,
    publisher: &mut Publisher,
    first: Viewer,
    second: Viewer,
) -> Result<(Viewer, Viewer), Stopped>
    requires beginning { IsBeginning publisher.old book.now }
    requires two { length publisher.old.editions ≡ 2 }
    requires second { second.list ≡ publisher.old.list }
    ensures going { OnOk result (publisher.new.ended ≡ false) }
    ensures list { OnOk result (publisher.new.list ≡ publisher.old.list) }
    ensures second { IfOk result (λ made. made.1.list ≡ publisher.old.list) }
{
    let published = publish_edition(rt, book, publisher, 2)?;
    push_notice(text, "publish", &published)?;
    let second = push_learned(text, "the second viewer learns of it", second, &published)?;
    push_notice(text, "the first viewer knows", first.known())?;
    Ok((first, second))
}

/// Adds what is answered when the end is published, and gives the first viewer.
fn push_end<R: Wait>(
    rt: &R,
    text: &mut String,
    publisher: &mut Publisher,
    first: Viewer,
    second: Viewer,
) -> Result<Viewer, Stopped>
    requires going { publisher.old.ended ≡ false }
    requires second { second.list ≡ publisher.old.list }
{
    let end = publisher.end(rt)?;
    push_notice(text, "end", &end)?;
    push_notice(text, "tell", &publisher.tell()?)?;
    let first = push_look(text, "the first viewer looks", first)?;
    let second = push_learned(text, "the second viewer learns of it", second, &end)?;
    push_look(text, "the second viewer looks", second)?;
    Ok(first)
}

/// Adds the edition that a viewer gives, and whether it then knows of the end.
fn push_look(text: &mut String, what: &str, viewer: Viewer) -> Result<Viewer, Stopped>
    ensures { IfOk result (λ looked. looked.list ≡ viewer.list) }
{
    let mut viewer = viewer;
    let newest = viewer.latest()?;
    push_line(text, what, newest.number(), viewer.known().is_end())?;
    Ok(viewer)
}

/// Adds what a viewer knows after it learned a notice.
fn push_learned(
    text: &mut String,
    what: &str,
    viewer: Viewer,
    told: &Notice,
) -> Result<Viewer, Stopped>
    requires { told.now.list ≡ viewer.list }
    ensures { IfOk result (λ learned. learned.list ≡ viewer.list) }
{
    let mut viewer = viewer;
    viewer.learn(told)?;
    push_notice(text, what, viewer.known())?;
    Ok(viewer)
}

/// Adds what a notice tells.
fn push_notice(text: &mut String, what: &str, notice: &Notice) -> Result<(), Stopped> {
    push_line(text, what, notice.number(), notice.is_end())
}

fn push_line(text: &mut String, what: &str, number: u64, ended: bool) -> Result<(), Stopped> {
    Ok(writeln!(text, "{what}: edition {number}, the end: {ended}")?)
}
