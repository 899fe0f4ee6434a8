//! How far a script has been served.

ghost use Rattle.std.specs.Prelude.{◌≡◌, ◌≤◌, [], All, length, IfOk, OnOk, OnErr};
ghost use Rattle.std.specs.Arc.{arc_value};
ghost use Rattle.sp_theory.specs.Points.{count_of};
ghost use Rattle.sp_model.specs.Problem.{problem, sizes_of};
ghost use Rattle.sp_session.specs.Logs.{logs_of};
ghost use Rattle.sp_script.specs.Laws.{IsObservationWithin};
ghost use Rattle.sp_serving.specs.Replies.{transcript_of};
ghost use Rattle.sp_serving.specs.Serving.{HasEntriesOf, shown_in};

use crate::closing::close_all;
use crate::replying::give;
use sp_dd::NoMemory;
use sp_script::Commands;
use sp_session::{Session, Transcript};
use sp_value::{Edition, Task};
use std::alloc::Global;
use std::marker::Model;
use std::sync::Arc;

/// A script under way: each command is served on the edition that is the newest then. Contracts see the commands that were served,
/// those that are left, and the logs so far.
#[derive(Drop)]
pub struct Serving {
    alloc: Global,
    task: Arc<Task>,
    commands: Commands,
    /// How many commands were served.
    count: u64,
    /// The number of the newest edition on which a command was served.
    newest: u64,
    /// In order of opening.
    sessions: Vec<Session>,
}

impl Model for Serving {
    ghost use Rattle.sp_serving.specs.Serving.{ServingParts};

    ghost Value = { ServingParts };

    ghost use Rattle.sp_serving.specs.Kept.{parts_in, IsKeptInside};

    ghost view = { parts_in };

    ghost invariant = { IsKeptInside };
}

impl Serving {
    ghost use Rattle.sp_serving.specs.Serving.{ServingParts, IsServing, first_serving, with_next, finished_logs};

    /// A script before any command. Later calls take their memory from `alloc`.
    pub fn new(alloc: Global, task: Arc<Task>, commands: Commands) -> Serving
        requires { All (IsObservationWithin (count_of (sizes_of (arc_value task).model.sights))) commands }
        ensures { result ≡ first_serving (arc_value task) commands }
    {
        let _ = commands.as_slice();
        let _ = task.model();
        Serving {
            alloc,
            task,
            commands,
            count: 0,
            newest: 0,
            sessions: Vec::new(alloc),
        }
    }

    /// How many commands are left. Takes no memory.
    pub fn left(&self) -> u64
        ensures { result ≡ length self.now.left }
    {
        self.commands.len() - self.count
    }

    /// The task of its sessions. Takes no memory.
    pub fn task(&self) -> &Arc<Task>
        ensures value { arc_value result.now ≡ self.now.task }
        ensures known { IsServing self.now }
    {
        &self.task
    }

    /// The number of the newest edition on which a command was served, first 0. Takes no memory.
    pub fn newest(&self) -> u64
        ensures { result ≡ self.now.newest }
    {
        self.newest
    }

    /// Serves the next command on an edition, if one is left. Unchanged on want of memory.
    pub fn serve_on(&mut self, edition: &Arc<Edition>) -> Result<(), NoMemory>
        requires task { (arc_value edition.now).task ≡ self.old.task }
        requires newest { self.old.newest ≤ (arc_value edition.now).number }
        ensures ok { OnOk result (self.new ≡ with_next self.old (shown_in (arc_value edition.now))) }
        ensures err { OnErr result (self.new ≡ self.old) }
    {
        if self.count == self.commands.len() {
            return Ok(());
        }
        let command = self.commands.at(self.count);
        give(self.alloc, &mut self.sessions, &self.task, command, edition)?;
        self.count += 1;
        self.newest = edition.number();
        Ok(())
    }

    /// Serves all commands that are left on the last edition, and gives the logs with the closing answers on it.
    pub fn finish(self, last: &Arc<Edition>) -> Result<Transcript, NoMemory>
        requires task { (arc_value last.now).task ≡ self.task }
        requires newest { self.newest ≤ (arc_value last.now).number }
        ensures logs { IfOk result (λ logs. logs_of logs ≡ finished_logs self (shown_in (arc_value last.now))) }
        ensures known { IfOk result (λ logs. All (HasEntriesOf self.task.model) (logs_of logs)) }
    {
        let mut serving = self;
        for _ in 0..serving.left() {
            serving.serve_on(last)?;
        }
        let Serving {
            alloc,
            sessions,
            ..
        } = serving;
        close_all(alloc, sessions, last)
    }
}

/// The logs of a script whose commands are all served on one edition, which is the last one.
pub fn serve_all(
    alloc: Global,
    commands: Commands,
    last: &Arc<Edition>,
) -> Result<Transcript, NoMemory>
    requires { All (IsObservationWithin (count_of (sizes_of (arc_value last.now).task.model.sights))) commands }
    ensures logs { IfOk result (λ logs. logs_of logs ≡ transcript_of (problem (arc_value last.now).task.model) [] (shown_in (arc_value last.now)) commands) }
    ensures known { IfOk result (λ logs. All (HasEntriesOf (arc_value last.now).task.model) (logs_of logs)) }
{
    let task = Arc::try_clone(last.task())?;
    Serving::new(alloc, task, commands).finish(last)
}
