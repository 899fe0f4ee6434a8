//! Logs of several desks, put together in order of opening.

ghost use Rattle.std.specs.Prelude.{◌≡◌, ℕ, ◌<◌, MatchBool, All, IfOk, OnOk, vec_len};
ghost use Rattle.sp_session.specs.Logs.{logs_of};
ghost use Rattle.sp_script.specs.Commands.{is_opening, name_of, verb_of};
ghost use Rattle.sp_script.specs.Served.{opened_names};
ghost use Rattle.sp_concurrent.specs.Deals.{desk_of, hand_of};
ghost use Rattle.sp_concurrent.specs.Gathered.{HasLogs, IsAmong, TakesFirst, log_names, logs_at};

use crate::deals::{desk_of, is_opening, name_of};
use crate::queues::Queue;
use sp_dd::NoMemory;
use sp_names::Names;
use sp_script::Command;
use sp_session::Transcript;
use std::alloc::Global;

/// The logs of all desks, in order of opening.
pub(crate) fn gather<'a>(
    alloc: Global,
    commands: &'a [Command],
    names: &Names<'a>,
    desks: u64,
    queues: Vec<Queue>,
) -> Result<Transcript, NoMemory>
    requires some { 0 < desks }
    requires count { vec_len queues ≡ desks }
    requires dealt { (d : ℕ) → d < desks → log_names (logs_at queues.items d) ≡ opened_names (hand_of (desk_of desks names.now) commands.now d) }
    ensures names { IfOk result (λ all. log_names (logs_of all) ≡ opened_names commands.now) }
    ensures each { IfOk result (λ all. All (IsAmong desks (logs_at queues.items)) (logs_of all)) }
{
    let mut queues = queues;
    let mut all = Transcript::new(alloc);
    for command in commands {
        gather_next(command, names, desks, &mut all, &mut queues)?;
    }
    Ok(all)
}

/// Puts the log of a session that is opened behind the others.
fn gather_next<'a>(
    command: &'a Command,
    names: &Names<'a>,
    desks: u64,
    all: &mut Transcript,
    queues: &mut Vec<Queue>,
) -> Result<(), NoMemory>
    requires some { 0 < desks }
    requires count { vec_len queues.old ≡ desks }
    requires more { MatchBool (is_opening (verb_of command.now)) (HasLogs queues.old.items (desk_of desks names.now (name_of command.now))) (Unit {0}) }
    ensures { OnOk result (MatchBool (is_opening (verb_of command.now)) (TakesFirst all.old queues.old.items (desk_of desks names.now (name_of command.now)) all.new queues.new.items) ((all.new ≡ all.old) × (queues.new.items ≡ queues.old.items))) }
{
    if !is_opening(command) {
        return Ok(());
    }
    let desk = desk_of(names, desks, name_of(command));
    take_first(all, queues, desk)?;
    Ok(())
}

/// Puts the first log of a desk behind the others.
fn take_first(all: &mut Transcript, queues: &mut Vec<Queue>, desk: usize) -> Result<(), NoMemory>
    requires within { desk < vec_len queues.old }
    requires more { HasLogs queues.old.items desk }
    ensures { OnOk result (TakesFirst all.old queues.old.items desk all.new queues.new.items) }
{
    let Some(log) = queues[desk].next() else {
        unreachable!()
    };
    all.push(log)?;
    Ok(())
}
