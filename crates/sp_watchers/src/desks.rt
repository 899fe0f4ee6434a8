//! What the sessions of a desk are answered on one thread.

ghost use Rattle.std.specs.Prelude.{◌≡◌, [], true, IfOk};
ghost use Rattle.std.specs.Arc.{arc_value};
ghost use Rattle.sp_theory.specs.Points.{count_of};
ghost use Rattle.sp_model.specs.Problem.{sizes_of};
ghost use Rattle.sp_publish.specs.Published.{IsOfTask};

use crate::stopped::Stopped;
use sp_desk::{AskError, Desk, DeskError};
use sp_publish::{Notice, Viewer};
use sp_session::{Answer, Entry, SessionLog, Transcript};
use sp_value::Task;
use std::alloc::Global;
use std::str;
use std::sync::Arc;

/// A desk without sessions.
fn desk_of(alloc: Global, viewer: Viewer, task: &Arc<Task>) -> Result<Desk, Stopped>
    requires { IsOfTask viewer (arc_value task.now) }
    ensures known { IfOk result (λ d. d.known ≡ viewer) }
    ensures seats { IfOk result (λ d. d.seats ≡ []) }
{
    let task = Arc::try_clone(task)?;
    Ok(Desk::begin(alloc, viewer, task))
}

/// Adds what a name is answered before a session of it was entered, and after.
pub fn push_stranger(
    alloc: Global,
    text: &mut String,
    viewer: Viewer,
    task: &Arc<Task>,
    told: &Notice,
) -> Result<(), Stopped>
    requires task { IsOfTask viewer (arc_value task.now) }
    requires list { told.now.list ≡ viewer.list }
{
    let mut desk = desk_of(alloc, viewer, task)?;
    let Err(AskError::NotOpen) = desk.ask("stranger", told) else {
        return Err(Stopped);
    };
    text.push_str("an answer for a name that wasn't entered: none\n")?;
    desk.enter("stranger")?;
    push_answer(text, &mut desk, "stranger", told)
}

/// Adds what a session is answered and told, and its log with the closing answer.
pub fn push_session(
    alloc: Global,
    text: &mut String,
    viewer: Viewer,
    task: &Arc<Task>,
    first: &Notice,
    told: &Notice,
    end: &Notice,
) -> Result<(), Stopped>
    requires task { IsOfTask viewer (arc_value task.now) }
    requires first { first.now.list ≡ viewer.list }
    requires told { told.now.list ≡ viewer.list }
    requires end { end.now.list ≡ viewer.list }
    requires ended { end.now.ended ≡ true }
{
    let mut desk = desk_of(alloc, viewer, task)?;
    desk.enter("robot")?;
    push_observed(text, &mut desk, 0)?;
    push_told(text, &mut desk, told)?;
    push_answer(text, &mut desk, "robot", first)?;
    push_observed(text, &mut desk, 0)?;
    push_observed(text, &mut desk, 0)?;
    push_answer(text, &mut desk, "robot", first)?;
    push_observed(text, &mut desk, 1)?;
    push_closed(text, &mut desk)?;
    push_observed(text, &mut desk, 0)?;
    push_logs(text, &desk.closing(end)?)
}

/// Adds the answer of a session of that name.
fn push_answer(text: &mut String, desk: &mut Desk, name: &str, told: &Notice) -> Result<(), Stopped>
    requires { told.now.list ≡ desk.old.known.list }
    ensures { desk.new.known.list ≡ desk.old.known.list }
{
    match desk.ask(name, told) {
        Ok(answer) => push_parts(text, answer),
        Err(_) => Err(Stopped),
    }
}

/// Adds an answer.
fn push_parts(text: &mut String, answer: Answer) -> Result<(), Stopped> {
    let (edition, member, action) = (answer.edition, answer.member, answer.action);
    let value = answer.value;
    Ok(writeln!(
        text,
        "an answer: edition {edition} member {member} action {action} value {value}"
    )?)
}

/// Adds the number that the session is told.
fn push_told(text: &mut String, desk: &mut Desk, told: &Notice) -> Result<(), Stopped>
    requires { told.now.list ≡ desk.old.known.list }
    ensures { desk.new.known.list ≡ desk.old.known.list }
{
    match desk.sync("robot", told) {
        Ok(number) => Ok(writeln!(text, "told: {number}")?),
        Err(_) => Err(Stopped),
    }
}

/// How many joint observations there are.
fn sights_of(desk: &Desk) -> u64
    ensures { result ≡ count_of (sizes_of desk.now.task.model.sights) }
{
    desk.task().model().joint_count()
}

/// Adds whether the session took an observation.
fn push_observed(text: &mut String, desk: &mut Desk, observation: u64) -> Result<(), Stopped>
    ensures { desk.new.known.list ≡ desk.old.known.list }
{
    if observation >= sights_of(desk) {
        return Err(Stopped);
    }
    let how = match desk.observe("robot", observation) {
        Ok(()) => "taken",
        Err(DeskError::NotOpen) => "no session is open",
        Err(DeskError::NoAction) => "no answer came before",
        Err(DeskError::Unseen) => "ruled out",
        Err(DeskError::NoMemory) => return Err(Stopped),
    };
    Ok(writeln!(text, "observation {observation}: {how}")?)
}

/// Adds whether the session was closed.
fn push_closed(text: &mut String, desk: &mut Desk) -> Result<(), Stopped>
    ensures { desk.new.known.list ≡ desk.old.known.list }
{
    let closed = desk.close("robot").is_ok();
    Ok(writeln!(text, "closed: {closed}")?)
}

/// Adds the logs.
fn push_logs(text: &mut String, logs: &Transcript) -> Result<(), Stopped> {
    for log in logs.as_slice() {
        push_log(text, log)?;
    }
    Ok(())
}

/// Adds a log.
fn push_log(text: &mut String, log: &SessionLog) -> Result<(), Stopped> {
    let name = str::from_utf8(log.name.bytes())?;
    writeln!(text, "session {name}")?;
    for entry in log.entries.as_slice() {
        push_entry(text, entry)?;
    }
    Ok(())
}

/// Adds an entry, as plan files have it.
fn push_entry(text: &mut String, entry: &Entry) -> Result<(), Stopped> {
    match entry {
        Entry::Told(edition) => Ok(writeln!(text, "told {edition}")?),
        Entry::Act {
            edition,
            member,
            action,
        } => Ok(writeln!(text, "act {edition} {member} {action}")?),
        Entry::Observe(observation) => Ok(writeln!(text, "observe {observation}")?),
        Entry::Unseen(observation) => Ok(writeln!(text, "unseen {observation}")?),
        Entry::Closing {
            edition,
            member,
            action,
        } => Ok(writeln!(text, "closing {edition} {member} {action}")?),
    }
}
