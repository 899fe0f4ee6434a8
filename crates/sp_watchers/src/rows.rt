//! What is published and seen on one thread, where each answer is known beforehand.

ghost use Rattle.std.specs.Prelude.{◌≡◌, [], true, All, IfOk, OnOk, length};
ghost use Rattle.std.specs.Arc.{arc_value};
ghost use Rattle.sp_publish.specs.Published.{IsOfTask};
ghost use Rattle.sp_workers.specs.Shared.{IsBeginning};

use crate::begun::{begun, publish_edition};
use crate::desks::{push_session, push_stranger};
use crate::stopped::Stopped;
use sp_core::Book;
use sp_publish::{Notice, Publisher, Viewer};
use sp_value::Task;
use sp_workers::finish;
use std::alloc::Global;
use std::sync::{Arc, Wait};

/// Adds what viewers and desks give once editions 0 and 1 of a book and the end are published.
pub fn push_rows<R: Wait>(
    rt: &R,
    alloc: Global,
    book: Book,
    text: &mut String,
) -> Result<(), Stopped> {
    let mut book = book;
    finish(alloc, &mut book)?;
    let (publisher, viewers, first) = begun(rt, alloc, &book, 5)?;
    let mut publisher = publisher;
    let pushed = match published(rt, &book, &mut publisher) {
        Ok((told, end)) => push_seen(alloc, text, viewers, book.task(), &first, &told, &end),
        Err(stopped) => Err(stopped),
    };
    publisher.close(rt);
    pushed
}

/// Publishes edition 1 of a book behind edition 0, and then the end, and gives the notices of both.
fn published<R: Wait>(
    rt: &R,
    book: &Book,
    publisher: &mut Publisher,
) -> Result<(Notice, Notice), Stopped>
    requires beginning { IsBeginning publisher.old book.now }
    requires one { length publisher.old.editions ≡ 1 }
    ensures told { IfOk result (λ made. made.0.list ≡ publisher.old.list) }
    ensures end { IfOk result (λ made. made.1.list ≡ publisher.old.list) }
    ensures ended { IfOk result (λ made. made.1.ended ≡ true) }
{
    let told = publish_edition(rt, book, publisher, 1)?;
    let end = publisher.end(rt)?;
    Ok((told, end))
}

/// Adds what each of the viewers sees.
fn push_seen(
    alloc: Global,
    text: &mut String,
    viewers: Vec<Viewer>,
    task: &Arc<Task>,
    first: &Notice,
    told: &Notice,
    end: &Notice,
) -> Result<(), Stopped>
    requires viewers { All (λ v. v ≡ first.now) viewers.items }
    requires task { IsOfTask first.now (arc_value task.now) }
    requires told { told.now.list ≡ first.now.list }
    requires end { end.now.list ≡ first.now.list }
    requires ended { end.now.ended ≡ true }
{
    let mut viewers = viewers;
    push_latest(text, "without a notice", next_of(&mut viewers, first)?)?;
    push_learned(
        text,
        "with the first notice",
        next_of(&mut viewers, first)?,
        first,
    )?;
    push_learned(
        text,
        "with the notice of the end",
        next_of(&mut viewers, first)?,
        end,
    )?;
    push_stranger(alloc, text, next_of(&mut viewers, first)?, task, told)?;
    push_session(
        alloc,
        text,
        next_of(&mut viewers, first)?,
        task,
        first,
        told,
        end,
    )
}

/// One of the viewers, which know what the first notice tells.
pub fn next_of(viewers: &mut Vec<Viewer>, first: &Notice) -> Result<Viewer, Stopped>
    requires { All (λ v. v ≡ first.now) viewers.old.items }
    ensures rest { All (λ v. v ≡ first.now) viewers.new.items }
    ensures viewer { IfOk result (λ v. v ≡ first.now) }
{
    match viewers.pop() {
        Some(viewer) => Ok(viewer),
        None => Err(Stopped),
    }
}

/// Adds the number of the edition that a viewer gives.
fn push_latest(text: &mut String, how: &str, viewer: Viewer) -> Result<(), Stopped> {
    let mut viewer = viewer;
    let newest = viewer.latest()?;
    let number = newest.number();
    Ok(writeln!(text, "a look {how}: {number}")?)
}

/// Adds the number of the edition that a viewer gives after it learned a notice.
fn push_learned(text: &mut String, how: &str, viewer: Viewer, told: &Notice) -> Result<(), Stopped>
    requires { told.now.list ≡ viewer.list }
{
    let mut viewer = viewer;
    viewer.learn(told)?;
    push_latest(text, how, viewer)
}
