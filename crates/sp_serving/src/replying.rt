//! Commands at sessions.

ghost use Rattle.std.specs.Prelude.{◌≡◌, ◌↔◌, ◌<◌, IsTrue, ◌++◌, [], ◌∷◌, true, false, All, length, map, slice_index_or, Contains, OnOk, OnErr};
ghost use Rattle.std.specs.Arc.{arc_value};
ghost use Rattle.sp_model.specs.Problem.{problem};
ghost use Rattle.sp_session.specs.Sessions.{first_parts};
ghost use Rattle.sp_script.specs.Commands.{name_of, verb_of, is_opening};
ghost use Rattle.sp_serving.specs.Replies.{log_after_command};
ghost use Rattle.sp_serving.specs.Serving.{IsFor, IsRepliedIn, IsSeatOf, log_in, shown_in};

use sp_dd::NoMemory;
use sp_model::Name;
use sp_script::Command;
use sp_session::{ObserveError, Session};
use sp_value::{Edition, Task};
use std::alloc::Global;
use std::sync::Arc;

/// The name of a command's session.
fn name_of(command: &Command) -> &Name
    ensures { result.now ≡ name_of command.now }
{
    match command {
        Command::Open { name, .. } => name,
        Command::Act { name, .. } => name,
        Command::Observe { name, .. } => name,
        Command::Sync { name, .. } => name,
        Command::Close { name, .. } => name,
    }
}

/// Whether a session has that name.
fn is_named(session: &Session, name: &Name) -> bool
    ensures { IsTrue result ↔ (session.now.name ≡ name.now) }
{
    session.name().bytes() == name.bytes()
}

/// The place of the first session of a name.
fn place_of(sessions: &[Session], name: &Name) -> usize
    requires { Contains (map (λ s. s.name) sessions.now) name.now }
    ensures within { result < length sessions.now }
    ensures name { (d : _) → (slice_index_or sessions.now result d).name ≡ name.now }
{
    for place in 0..sessions.len() {
        if is_named(&sessions[place], name) {
            return place;
        }
    }
    unreachable!()
}

/// Gives a command to its session, which an opening makes.
pub(crate) fn give(
    alloc: Global,
    sessions: &mut Vec<Session>,
    task: &Arc<Task>,
    command: &Command,
    edition: &Arc<Edition>,
) -> Result<(), NoMemory>
    requires there { is_opening (verb_of command.now) ≡ false → Contains (map (λ s. s.name) sessions.old.items) (name_of command.now) }
    requires seats { All (IsSeatOf (arc_value edition.now).task (arc_value edition.now).number) sessions.old.items }
    requires fit { All (λ s. s.name ≡ name_of command.now → IsFor s command.now) sessions.old.items }
    ensures opened { OnOk result (is_opening (verb_of command.now) ≡ true → sessions.new.items ≡ sessions.old.items ++ first_parts (name_of command.now) (arc_value task.now) ∷ []) }
    ensures replied { OnOk result (is_opening (verb_of command.now) ≡ false → IsRepliedIn (shown_in (arc_value edition.now)) command.now sessions.old.items sessions.new.items) }
    ensures err { OnErr result (sessions.new.items ≡ sessions.old.items) }
{
    match command {
        Command::Open { name, .. } => open(alloc, sessions, task, name),
        _ => {
            let place = place_of(sessions, name_of(command));
            reply(&mut sessions[place], command, edition)
        }
    }
}

/// Opens a session.
fn open(
    alloc: Global,
    sessions: &mut Vec<Session>,
    task: &Arc<Task>,
    name: &Name,
) -> Result<(), NoMemory>
    ensures ok { OnOk result (sessions.new.items ≡ sessions.old.items ++ first_parts name.now (arc_value task.now) ∷ []) }
    ensures err { OnErr result (sessions.new.items ≡ sessions.old.items) }
{
    let name = Name::new(alloc, name.bytes())?;
    let task = Arc::try_clone(task)?;
    let session = Session::named(alloc, name, task)?;
    sessions.push(session).map_err(|_| NoMemory)?;
    Ok(())
}

/// Gives a session a command that isn't its opening.
fn reply(session: &mut Session, command: &Command, edition: &Arc<Edition>) -> Result<(), NoMemory>
    requires plain { is_opening (verb_of command.now) ≡ false }
    requires seat { IsSeatOf (arc_value edition.now).task (arc_value edition.now).number session.old }
    requires fit { IsFor session.old command.now }
    ensures ok { OnOk result (log_in session.new ≡ log_after_command (problem session.old.task.model) (shown_in (arc_value edition.now)) command.now (log_in session.old)) }
    ensures task { session.new.task ≡ session.old.task }
    ensures err { OnErr result (session.new ≡ session.old) }
{
    match command {
        Command::Open { .. } | Command::Close { .. } => Ok(()),
        Command::Act { .. } => {
            session.act(edition)?;
            Ok(())
        }
        Command::Observe { observation, .. } => match session.observe(*observation) {
            Ok(()) | Err(ObserveError::Unseen) => Ok(()),
            Err(ObserveError::NoMemory) => Err(NoMemory),
            Err(ObserveError::NoAction) => unreachable!(),
        },
        Command::Sync { .. } => {
            session.told(edition.number())?;
            Ok(())
        }
    }
}
