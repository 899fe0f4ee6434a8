//! What chooses the actions that sampled beliefs follow.
//!
//! Contracts see a chooser as a machine whose states are lists of numbers: `specs/Machines.antt` says which machine each kind is.
#![tactic(auto)]

ghost use Rattle.std.specs.Prelude.{◌≡◌, ◌<◌};
ghost use Rattle.sp_choose.specs.Machines.{Machine, answer_of, after_answer, uniform, sweep, list_machine};

use sp_dd::Ids;
use std::marker::Model;

/// What chooses an action for each sampled belief.
pub trait Chooser: Drop {
    // The chooser as a machine that stands in the state that the chooser is in.
    ghost machine: { Self → Machine };

    /// The number of an action, of `actions` many. `depth` says how far the belief that the action is taken at lies from the
    /// initial one; `word` is a random word. Takes no memory.
    fn choose(&mut self, depth: u64, actions: u64, word: u64) -> u64
        requires { 0 < actions }
        ensures below { result < actions }
        ensures answer { result ≡ answer_of (machine self.old) depth actions word }
        ensures after { machine self.new ≡ after_answer (machine self.old) depth actions word };
}

/// The action that the word draws, whatever was chosen before.
#[derive(Drop)]
pub struct Uniform;

impl Chooser for Uniform {
    ghost machine = { λ _. uniform };

    fn choose(&mut self, _depth: u64, actions: u64, word: u64) -> u64 {
        word % actions
    }
}

/// The actions in turn. Contracts see the number that it keeps.
#[derive(Drop)]
pub struct Sweep {
    kept: u64,
}

impl Model for Sweep {
    ghost use Rattle.std.specs.Prelude.{ℕ};

    ghost Value = { ℕ };

    ghost view = { λ s. s.kept };
}

impl Sweep {
    /// A chooser that begins with action 0.
    pub fn new() -> Sweep
        ensures { result ≡ 0 }
    {
        Sweep { kept: 0 }
    }
}

impl Chooser for Sweep {
    ghost machine = { sweep };

    fn choose(&mut self, _depth: u64, actions: u64, _word: u64) -> u64 {
        let answer = self.kept % actions;
        self.kept = (answer + 1) % actions;
        answer
    }
}

/// The numbers of a list in turn, around its end. Contracts see the list from the number on that comes next.
#[derive(Drop)]
pub struct Listed {
    list: Ids,
    next: u64,
}

impl Model for Listed {
    ghost use Rattle.std.specs.Prelude.{ℕ, List, ◌++◌, ◌≤◌, length, take, drop};

    ghost Value = { List ℕ };

    ghost view = { λ l. drop l.next l.list ++ take l.next l.list };

    ghost invariant = { λ l. l.next ≤ length l.list };
}

impl Listed {
    /// A chooser that begins with the first number of the list.
    pub fn new(list: Ids) -> Listed
        ensures { result ≡ list }
    {
        Listed { list, next: 0 }
    }
}

impl Chooser for Listed {
    ghost machine = { list_machine };

    fn choose(&mut self, _depth: u64, actions: u64, _word: u64) -> u64 {
        if self.list.len() == 0 {
            return 0;
        }
        if self.next == self.list.len() {
            self.next = 0;
        }
        let answer = *self.list.at(self.next) % actions;
        self.next += 1;
        answer
    }
}
