//! The sessions of a script, as far as it is read.

ghost use Rattle.std.specs.Prelude.{◌≡◌, ◌+◌, ℕ, List, [], true, IfOk, IfErr, OnOk, if◌then◌else◌, is_some, Some};
ghost use Rattle.std.specs.Str.{bytes_eq};
ghost use Rattle.indexmap.specs.IndexMap.{index_map_len};
ghost use Rattle.sp_script.specs.Ledger.{IsRequestEntered, IsScriptLedger, IsRefusedAfter, fault_at, kept_seat, seat_after};
ghost use Rattle.sp_script.specs.PlainRequests.{plain_request};
ghost use Rattle.sp_script.specs.Requests.{is_session_name};
ghost use Rattle.sp_script.specs.Script.{command_of};

use crate::command::{Command, Commands};
use crate::error::{ScriptError, ScriptKind};
use crate::request::{Request, Verb};
use indexmap::IndexMap;
use sp_dd::NoMemory;
use sp_model::Name;
use std::alloc::Global;

/// How many sessions a script may open.
const MOST_SESSIONS: u64 = 1024;

/// How a session stands that was opened.
#[derive(Clone, Copy)]
enum Seat {
    /// It is open, and didn't act since its opening or its last `observe`.
    Silent,
    /// It is open, and acted since.
    Answered,
    Closed,
}

/// What is wrong with a request at a session that stands so, the values it observes apart, where so many were opened.
fn fault_of(verb: Verb, seat: Option<Seat>, opened: u64) -> Option<ScriptKind>
    ensures { result ≡ fault_at verb seat opened }
{
    match seat {
        None => match verb {
            Verb::Opening => {
                if opened < MOST_SESSIONS {
                    None
                } else {
                    Some(ScriptKind::TooMany {
                        limit: MOST_SESSIONS,
                    })
                }
            }
            _ => Some(ScriptKind::NotOpen),
        },
        Some(seat) => match verb {
            Verb::Opening => Some(ScriptKind::Twice),
            Verb::Observing(_) => match seat {
                Seat::Silent => Some(ScriptKind::NoAction),
                Seat::Answered => None,
                Seat::Closed => Some(ScriptKind::NotOpen),
            },
            _ => match seat {
                Seat::Closed => Some(ScriptKind::NotOpen),
                _ => None,
            },
        },
    }
}

/// How a session stands after a request.
fn seat_after(verb: Verb, seat: Option<Seat>) -> Seat
    ensures { result ≡ seat_after verb seat }
{
    match verb {
        Verb::Opening => Seat::Silent,
        Verb::Asking => Seat::Answered,
        Verb::Observing(_) => Seat::Silent,
        Verb::Syncing => seat.unwrap_or(Seat::Silent),
        Verb::Closing => Seat::Closed,
    }
}

/// The command that a request on that line is; none where it observes what isn't known.
fn command_of(alloc: Global, request: Request, line: u64) -> Result<Option<Command>, NoMemory>
    ensures { IfOk result (λ command. command ≡ command_of line (plain_request request.entry)) }
{
    let name = Name::new(alloc, request.name)?;
    Ok(match request.verb {
        Verb::Opening => Some(Command::Open { name, line }),
        Verb::Asking => Some(Command::Act { name, line }),
        Verb::Observing(Some(observation)) => Some(Command::Observe {
            name,
            line,
            observation,
        }),
        Verb::Observing(None) => None,
        Verb::Syncing => Some(Command::Sync { name, line }),
        Verb::Closing => Some(Command::Close { name, line }),
    })
}

/// The commands so far, and how their sessions stand.
#[derive(Drop)]
pub struct Ledger<'a> {
    seats: IndexMap<&'a [u8], Seat>,
    commands: Commands,
}

impl<'a> Ledger<'a> {
    /// No command; it takes its memory from `alloc` as it grows.
    pub fn new(alloc: Global) -> Ledger<'a>
        ensures value { result.commands ≡ [] }
        ensures kept { IsScriptLedger result }
    {
        Ledger {
            seats: IndexMap::new(alloc),
            commands: Commands::new(alloc),
        }
    }

    /// How a session stands, if it was opened.
    fn seat_of(&self, name: &[u8]) -> Option<Seat>
        ensures { result ≡ kept_seat self.now name.now }
    {
        self.seats.get(name).copied()
    }

    /// Keeps how a session stands.
    fn set_seat(&mut self, name: &'a [u8], seat: Seat) -> Result<(), NoMemory>
        ensures seats { OnOk result ((other : List ℕ) → kept_seat self.new other ≡ (if bytes_eq name.now other then Some seat else kept_seat self.old other)) }
        ensures count { OnOk result (index_map_len self.new.seats ≡ index_map_len self.old.seats + (if is_some (kept_seat self.old name.now) then 0 else 1)) }
        ensures commands { self.new.commands ≡ self.old.commands }
    {
        match self.seats.insert(name, seat) {
            Ok(_) => Ok(()),
            Err(_) => Err(NoMemory),
        }
    }

    /// Enters a request of the line of that number.
    pub fn enter(
        &mut self,
        alloc: Global,
        request: Request<'a>,
        line: u64,
    ) -> Result<(), ScriptError>
        requires kept { IsScriptLedger self.old }
        requires name { is_session_name request.name.now ≡ true }
        ensures entered { OnOk result (IsRequestEntered self.old.commands (plain_request request.entry) line self.new.commands) }
        ensures kept { OnOk result (IsScriptLedger self.new) }
        ensures err { IfErr result (IsRefusedAfter self.old.commands (plain_request request.entry) line) }
    {
        let seat = self.seat_of(request.name);
        if let Some(kind) = fault_of(request.verb, seat, self.seats.len() as u64) {
            return Err(ScriptError::Fault { line, kind });
        }
        let Some(command) = command_of(alloc, request, line)? else {
            return Err(ScriptError::Fault {
                line,
                kind: ScriptKind::UnknownValue,
            });
        };
        self.commands.push(command)?;
        self.set_seat(request.name, seat_after(request.verb, seat))?;
        Ok(())
    }

    /// The commands.
    pub fn into_commands(self) -> Commands
        ensures { result ≡ self.entry.commands }
    {
        self.commands
    }
}
