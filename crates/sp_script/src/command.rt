//! Commands of sessions.

ghost use Rattle.std.specs.Prelude.{◌≡◌, ◌<◌, ◌++◌, [], ◌∷◌, Some, length, slice_get, OnOk, OnErr};

use sp_dd::NoMemory;
use sp_model::Name;
use std::alloc::Global;
use std::marker::Model;

/// A command of the session of that name, from the line of that number.
#[derive(Drop)]
pub enum Command {
    /// The session begins.
    Open {
        name: Name,
        line: u64,
    },
    /// It asks for an answer.
    Act {
        name: Name,
        line: u64,
    },
    /// It observes the joint observation of that number.
    Observe {
        name: Name,
        line: u64,
        observation: u64,
    },
    /// It is told the number of the newest edition.
    Sync {
        name: Name,
        line: u64,
    },
    /// It takes no further command.
    Close {
        name: Name,
        line: u64,
    },
}

/// The commands of sessions, in order. Contracts see them as a list, of which `AreCommands` holds.
#[derive(Drop)]
pub struct Commands {
    items: Vec<Command>,
}

impl Model for Commands {
    ghost use Rattle.std.specs.Prelude.{List};
    ghost use Rattle.sp_script.specs.declared.command.Command.{Command};
    ghost use Rattle.sp_script.specs.Commands.{AreCommands};

    ghost Value = { List Command };

    ghost view = { λ c. c.items.items };

    ghost invariant = { λ c. AreCommands c.items.items };
}

impl Commands {
    ghost use Rattle.sp_script.specs.Commands.{AreCommands};

    /// No command; it takes its memory from `alloc` as it grows.
    pub fn new(alloc: Global) -> Commands
        ensures { result ≡ [] }
    {
        Commands {
            items: Vec::new(alloc),
        }
    }

    /// Appends a command that may come after those that are there.
    pub fn push(&mut self, item: Command) -> Result<(), NoMemory>
        requires { AreCommands (self.old ++ item ∷ []) }
        ensures ok { OnOk result (self.new ≡ self.old ++ item ∷ []) }
        ensures err { OnErr result (self.new ≡ self.old) }
    {
        self.items.push(item).map_err(|_| NoMemory)?;
        Ok(())
    }

    /// How many commands there are. Takes no memory.
    pub fn len(&self) -> u64
        ensures { result ≡ length self.now }
    {
        self.items.len() as u64
    }

    /// The command at a place, counted from 0. Takes no memory.
    pub fn at(&self, place: u64) -> &Command
        requires { place < length self.now }
        ensures value { slice_get self.now place ≡ Some result.now }
        ensures known { AreCommands self.now }
    {
        &self.items[place as usize]
    }

    /// All commands, in order. Takes no memory.
    pub fn as_slice(&self) -> &[Command]
        ensures value { result.now ≡ self.now }
        ensures known { AreCommands self.now }
    {
        self.items.as_slice()
    }
}
