//! A script's commands at a desk, in steps beside the planners.

ghost use Rattle.std.specs.Prelude.{◌≡◌, ◌+◌, ◌-◌, ◌<◌, ◌↔◌, [], length, All, IsTrue, OnErr, OnOk};
ghost use Rattle.sp_theory.specs.Points.{count_of};
ghost use Rattle.sp_model.specs.Problem.{sizes_of};
ghost use Rattle.sp_publish.specs.Published.{ListGoesOn};
ghost use Rattle.sp_script.specs.Laws.{IsObservationWithin};

use crate::desk::Desk;
use crate::serving::serve;
use sp_dd::NoMemory;
use sp_publish::{Beside, Notice};
use sp_script::{Command, Commands};
use sp_value::Task;
use std::marker::Model;

/// The commands of some sessions at a desk of their own: one is served with each step. Its logs reply to the commands that aren't
/// left.
#[derive(Drop)]
pub struct DeskRun {
    desk: Desk,
    commands: Commands,
    /// How many commands were served.
    served: u64,
}

impl Model for DeskRun {
    ghost use Rattle.sp_desk.specs.Runs.{DeskRunParts, IsDeskRun};

    ghost Value = { DeskRunParts };

    ghost view = { λ r. record { desk = r.desk; commands = r.commands; served = r.served } };

    ghost invariant = { λ r. IsDeskRun (record { desk = r.desk; commands = r.commands; served = r.served }) };
}

impl DeskRun {
    ghost use Rattle.sp_desk.specs.Runs.{IsDeskRun};

    /// All commands are left.
    pub fn new(desk: Desk, commands: Commands) -> DeskRun
        requires empty { desk.seats ≡ [] }
        requires within { All (IsObservationWithin (count_of (sizes_of desk.task.model.sights))) commands }
        ensures { result ≡ record { desk = desk; commands = commands; served = 0 } }
    {
        let _ = desk.task();
        let _ = commands.as_slice();
        DeskRun {
            desk,
            commands,
            served: 0,
        }
    }

    /// All commands, the served ones with them. The run keeps what `IsDeskRun` says. Takes no memory.
    pub fn commands(&self) -> &Commands
        ensures value { result.now ≡ self.now.commands }
        ensures known { IsDeskRun self.now }
    {
        &self.commands
    }

    /// The desk, once no command is left. The run keeps what `IsDeskRun` says. Takes no memory.
    pub fn desk(self) -> Desk
        requires { self.served ≡ length self.commands }
        ensures value { result ≡ self.desk }
        ensures known { IsDeskRun self }
    {
        self.desk
    }
}

impl Beside for DeskRun {
    ghost use Rattle.sp_desk.specs.Runs.{AsksForNotice, ServesNext, left_of, work_of};

    type Work = (Commands, Task);

    ghost work = { work_of };

    ghost known = { λ r. r.desk.known };

    ghost steps = { left_of };

    fn left(&self) -> u64 {
        self.commands.len() - self.served
    }

    /// Exactly where the next command is a `sync`.
    fn wants_notice(&self) -> bool
        ensures { IsTrue result ↔ AsksForNotice self.now }
    {
        self.served < self.commands.len()
            && matches!(self.commands.at(self.served), Command::Sync { .. })
    }

    /// Serves the next command. At want of memory every session is unchanged, and the desk may know more of the list.
    fn step(&mut self, told: &Notice) -> Result<(), NoMemory>
        requires left { 0 < left_of self.old }
        requires list { told.now.list ≡ self.old.desk.known.list }
        ensures work { work_of self.new ≡ work_of self.old }
        ensures known { ListGoesOn self.old.desk.known self.new.desk.known }
        ensures ok { OnOk result (left_of self.new + 1 ≡ left_of self.old) }
        ensures err { OnErr result (left_of self.new ≡ left_of self.old) }
        ensures serves { OnOk result (ServesNext self.old told.now self.new) }
        ensures same { OnErr result (self.new.desk.seats ≡ self.old.desk.seats) }
    {
        let count = self.commands.len();
        prove!(self.served < count);
        let command = self.commands.at(self.served);
        serve(&mut self.desk, command, told)?;
        self.served += 1;
        Ok(())
    }
}
