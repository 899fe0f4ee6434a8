//! Sessions dealt to desks.

ghost use Rattle.std.specs.Prelude.{◌≡◌, ◌<◌, ◌≤◌, ◌++◌, [], ◌∷◌, List, cond, false, true, max, min, replicate, set, slice_index_or, vec_len, IfOk, OnOk};
ghost use Rattle.std.specs.List.{list_any};
ghost use Rattle.std.specs.Str.{bytes_eq};
ghost use Rattle.sp_script.specs.declared.command.Command.{Command};
ghost use Rattle.sp_script.specs.Commands.{AreCommands, is_opening, name_of, opening_count, verb_of};
ghost use Rattle.sp_script.specs.Served.{opened_names};
ghost use Rattle.sp_concurrent.specs.Deals.{AreHands, desk_of};

use sp_dd::NoMemory;
use sp_model::Name;
use sp_names::Names;
use sp_script::{Command, Commands};
use std::alloc::Global;

/// How many desks there are at most.
const MOST_DESKS: u64 = 8;

/// Whether a command opens its session.
pub(crate) fn is_opening(command: &Command) -> bool
    ensures { result ≡ is_opening (verb_of command.now) }
{
    matches!(command, Command::Open { .. })
}

/// The name of a command's session.
pub(crate) fn name_of(command: &Command) -> &[u8]
    ensures { result.now ≡ name_of command.now }
{
    match command {
        Command::Open { name, .. } => name.bytes(),
        Command::Act { name, .. } => name.bytes(),
        Command::Observe { name, .. } => name.bytes(),
        Command::Sync { name, .. } => name.bytes(),
        Command::Close { name, .. } => name.bytes(),
    }
}

/// The names of the sessions, in order of opening.
pub(crate) fn sessions_of<'a>(alloc: Global, commands: &'a [Command]) -> Result<Names<'a>, NoMemory>
    requires { AreCommands commands.now }
    ensures { IfOk result (λ names. names ≡ opened_names commands.now) }
{
    let mut names = Names::new(alloc);
    for command in commands {
        enter(&mut names, command)?;
    }
    Ok(names)
}

/// Takes the name of a session that is opened.
fn enter<'a>(names: &mut Names<'a>, command: &'a Command) -> Result<(), NoMemory>
    requires { is_opening (verb_of command.now) ≡ true → list_any (bytes_eq (name_of command.now)) names.old ≡ false }
    ensures { OnOk result (names.new ≡ names.old ++ cond (is_opening (verb_of command.now)) (name_of command.now ∷ []) []) }
{
    if !is_opening(command) {
        return Ok(());
    }
    names.declare(name_of(command))?;
    Ok(())
}

/// How many desks serve a script: one for each session, but 8 at most, and one where there is no session.
pub(crate) fn desk_count(commands: &[Command]) -> u64
    ensures { result ≡ max (min (opening_count commands.now) 8) 1 }
{
    session_count(commands).min(MOST_DESKS).max(1)
}

/// How many sessions are opened.
fn session_count(commands: &[Command]) -> u64
    ensures { result ≡ opening_count commands.now }
{
    let mut count = 0;
    for command in commands {
        count += openings(command);
    }
    count
}

/// How many sessions a command opens.
fn openings(command: &Command) -> u64
    ensures value { result ≡ cond (is_opening (verb_of command.now)) 1 0 }
    ensures few { result ≤ 1 }
{
    u64::from(is_opening(command))
}

/// The number of the desk of the session of that name, of so many desks.
pub(crate) fn desk_of<'a>(names: &Names<'a>, desks: u64, name: &'a [u8]) -> usize
    requires { 0 < desks }
    ensures value { result ≡ desk_of desks names.now name.now }
    ensures below { result < desks }
{
    let number = names.number_of(name).unwrap_or(0);
    (number % desks) as usize
}

/// Deals the commands of a script to so many desks: each has all commands of its sessions.
pub(crate) fn deal<'a>(
    alloc: Global,
    commands: &'a [Command],
    names: &Names<'a>,
    desks: u64,
) -> Result<Vec<Commands>, NoMemory>
    requires known { AreCommands commands.now }
    requires some { 0 < desks }
    ensures { IfOk result (λ hands. AreHands (desk_of desks names.now) desks commands.now hands.items) }
{
    let mut hands = empty_hands(alloc, desks)?;
    for command in commands {
        let desk = desk_of(names, desks, name_of(command));
        hand_over(alloc, &mut hands, desk, command)?;
    }
    Ok(hands)
}

/// So many hands without a command.
fn empty_hands(alloc: Global, desks: u64) -> Result<Vec<Commands>, NoMemory>
    ensures { IfOk result (λ hands. hands.items ≡ replicate desks []) }
{
    let mut hands = Vec::new(alloc);
    for _ in 0..desks {
        hands.push(Commands::new(alloc)).map_err(|_| NoMemory)?;
    }
    Ok(hands)
}

/// Puts a command behind those of a hand.
fn hand_over(
    alloc: Global,
    hands: &mut Vec<Commands>,
    desk: usize,
    command: &Command,
) -> Result<(), NoMemory>
    requires within { desk < vec_len hands.old }
    requires known { AreCommands (slice_index_or hands.old.items desk [] ++ command.now ∷ []) }
    ensures { OnOk result (hands.new.items ≡ set hands.old.items desk (slice_index_or hands.old.items desk [] ++ command.now ∷ [])) }
{
    let copy = copy_of(alloc, command)?;
    hands[desk].push(copy)
}

/// The same command once more.
fn copy_of(alloc: Global, command: &Command) -> Result<Command, NoMemory>
    ensures { IfOk result (λ copy. copy ≡ command.now) }
{
    let name = Name::new(alloc, name_of(command))?;
    Ok(match *command {
        Command::Open { line, .. } => Command::Open { name, line },
        Command::Act { line, .. } => Command::Act { name, line },
        Command::Observe {
            line,
            observation,
            ..
        } => Command::Observe {
            name,
            line,
            observation,
        },
        Command::Sync { line, .. } => Command::Sync { name, line },
        Command::Close { line, .. } => Command::Close { name, line },
    })
}
