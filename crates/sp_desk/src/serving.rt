//! One command at a desk.

ghost use Rattle.std.specs.Prelude.{◌≡◌, ◌<◌, ◌≢◌, true, ℕ, All, IsSome, OnErr, OnOk};
ghost use Rattle.sp_theory.specs.Points.{count_of};
ghost use Rattle.sp_model.specs.Problem.{sizes_of};
ghost use Rattle.sp_session.specs.Sessions.{session_of};
ghost use Rattle.sp_session.specs.declared.answers.Answer.{Answer};
ghost use Rattle.sp_desk.specs.declared.seats.Seat.{Seat};
ghost use Rattle.sp_desk.specs.Desks.{IsDesk, IsOpenAt, is_open_in, names_in, with_session};
ghost use Rattle.sp_desk.specs.Asked.{HasAnswered, HasClosed, HasSynced, KnowsMore};
ghost use Rattle.sp_desk.specs.Serving.{HasNoted, HasServed, MayServe};

use crate::desk::Desk;
use crate::errors::{AskError, DeskError, NotOpen};
use sp_dd::NoMemory;
use sp_publish::Notice;
use sp_script::Command;

/// Serves a command of a script. At want of memory every session is unchanged, and the desk may know more of the list.
pub(crate) fn serve(desk: &mut Desk, command: &Command, told: &Notice) -> Result<(), NoMemory>
    requires list { told.now.list ≡ desk.old.known.list }
    requires fit { MayServe desk.old command.now }
    ensures ok { OnOk result (HasServed desk.old command.now told.now desk.new) }
    ensures err { OnErr result (KnowsMore desk.old desk.new) }
    ensures known { IsDesk desk.new }
{
    let served = dispatch(desk, command, told);
    let _ = desk.task();
    served
}

fn dispatch(desk: &mut Desk, command: &Command, told: &Notice) -> Result<(), NoMemory>
    requires list { told.now.list ≡ desk.old.known.list }
    requires fit { MayServe desk.old command.now }
    ensures ok { OnOk result (HasServed desk.old command.now told.now desk.new) }
    ensures err { OnErr result (KnowsMore desk.old desk.new) }
{
    match command {
        Command::Open { name, .. } => open(desk, name.bytes()),
        Command::Act { name, .. } => act(desk, name.bytes(), told),
        Command::Observe {
            name,
            observation,
            ..
        } => observe(desk, name.bytes(), *observation),
        Command::Sync { name, .. } => sync(desk, name.bytes(), told),
        Command::Close { name, .. } => close(desk, name.bytes()),
    }
}

fn open(desk: &mut Desk, name: &[u8]) -> Result<(), NoMemory>
    requires { All (λ other. other ≢ name.now) (names_in desk.old.seats) }
    ensures ok { OnOk result (desk.new ≡ with_session desk.old name.now) }
    ensures err { OnErr result (KnowsMore desk.old desk.new) }
{
    desk.enter_named(name)
}

fn act(desk: &mut Desk, name: &[u8], told: &Notice) -> Result<(), NoMemory>
    requires list { told.now.list ≡ desk.old.known.list }
    requires is_open { is_open_in name.now desk.old.seats ≡ true }
    ensures ok { OnOk result ((answer : Answer) × HasAnswered desk.old name.now told.now answer desk.new) }
    ensures err { OnErr result (KnowsMore desk.old desk.new) }
{
    match desk.ask_named(name, told) {
        Ok(_answer) => Ok(()),
        Err(AskError::NotOpen) => unreachable!(),
        Err(AskError::NoMemory) => Err(NoMemory),
    }
}

fn observe(desk: &mut Desk, name: &[u8], observation: u64) -> Result<(), NoMemory>
    requires is_open { is_open_in name.now desk.old.seats ≡ true }
    requires within { observation < count_of (sizes_of desk.old.task.model.sights) }
    requires answered { (place : ℕ) (seat : Seat) → IsOpenAt name.now desk.old.seats place seat → IsSome (session_of seat.session).acted }
    ensures ok { OnOk result (HasNoted desk.old name.now observation desk.new) }
    ensures err { OnErr result (KnowsMore desk.old desk.new) }
{
    match desk.observe_named(name, observation) {
        Ok(()) | Err(DeskError::Unseen) => Ok(()),
        Err(DeskError::NotOpen | DeskError::NoAction) => unreachable!(),
        Err(DeskError::NoMemory) => Err(NoMemory),
    }
}

fn sync(desk: &mut Desk, name: &[u8], told: &Notice) -> Result<(), NoMemory>
    requires list { told.now.list ≡ desk.old.known.list }
    requires is_open { is_open_in name.now desk.old.seats ≡ true }
    ensures ok { OnOk result ((number : ℕ) × HasSynced desk.old name.now told.now number desk.new) }
    ensures err { OnErr result (KnowsMore desk.old desk.new) }
{
    match desk.sync_named(name, told) {
        Ok(_number) => Ok(()),
        Err(AskError::NotOpen) => unreachable!(),
        Err(AskError::NoMemory) => Err(NoMemory),
    }
}

fn close(desk: &mut Desk, name: &[u8]) -> Result<(), NoMemory>
    requires { is_open_in name.now desk.old.seats ≡ true }
    ensures ok { OnOk result (HasClosed desk.old name.now desk.new) }
    ensures err { OnErr result (KnowsMore desk.old desk.new) }
{
    match desk.close_named(name) {
        Ok(()) => Ok(()),
        Err(NotOpen) => unreachable!(),
    }
}
