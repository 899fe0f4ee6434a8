//! What the words of a command line ask for.

ghost use Rattle.std.specs.Prelude.{◌≡◌, IfOk, option_map};

use std::alloc::{AllocError, Global};
use std::marker::Model;

/// The name of a file, as it stands on the command line.
#[derive(Drop)]
pub struct Name {
    text: String,
}

impl Model for Name {
    ghost use Rattle.std.specs.Prelude.{List, ℕ, string_bytes};

    ghost Value = { List ℕ };

    ghost view = { λ n. string_bytes n.text };
}

impl Name {
    /// The name of this text.
    pub fn new(alloc: Global, text: &str) -> Result<Name, AllocError>
        ensures { IfOk result (λ name. name ≡ text.now) }
    {
        let text = text.to_string(alloc)?;
        Ok(Name { text })
    }

    /// Its text. Takes no memory.
    pub fn as_str(&self) -> &str
        ensures { result.now ≡ self.now }
    {
        self.text.as_str()
    }
}

/// The name of this text, if there is one.
pub fn name_of(alloc: Global, text: Option<&str>) -> Result<Option<Name>, AllocError>
    ensures { IfOk result (λ name. name ≡ option_map (λ s. s.now) text.entry) }
{
    match text {
        None => Ok(None),
        Some(text) => {
            let name = Name::new(alloc, text)?;
            Ok(Some(name))
        }
    }
}

/// The numbers that `plan` is asked for, each as in [`PlanWords`].
#[derive(Clone, Copy)]
pub struct PlanNumbers {
    pub beliefs: u64,
    pub depth: u64,
    pub stages: u64,
    pub seed: u64,
    pub workers: u64,
}

/// What `plan` is asked for.
#[derive(Drop)]
pub struct PlanWords {
    /// The name of the model file.
    pub model: Name,
    /// How many beliefs are sampled: 1 to 4096.
    pub beliefs: u64,
    /// After how many steps a sampled trajectory starts anew: 1 to 4096.
    pub depth: u64,
    /// How many stages are made: 1 to 1000.
    pub stages: u64,
    /// The seed of the random words.
    pub seed: u64,
    /// How many threads plan beside the caller: 0 to 64.
    pub workers: u64,
    /// Whether dominated vectors are dropped after each stage but the last.
    pub prune: bool,
    /// Whether the sampled beliefs explore the actions in turn, and not at random.
    pub sweep: bool,
    /// The name of the script of acting sessions, where there is one.
    pub sessions: Option<Name>,
}

/// A command with what its words say.
#[derive(Drop)]
pub enum Job {
    /// Plan for the model of a file.
    Plan(PlanWords),
    /// Judge a model file.
    Check { model: Name },
    /// Write the canonical text of a model file.
    Show { model: Name },
    /// Write the generated model of a number.
    Gen { number: u64 },
    /// Plan for the generated model of a number, and write a summary.
    Trial { number: u64 },
    /// Judge a plan file.
    Audit { plan: Name },
    /// Write a plan file in its newest version.
    Migrate { plan: Name },
    /// Serve a script of acting sessions on the last edition of a plan file.
    Act { plan: Name, script: Name },
    /// Write how the program is called.
    Help,
    /// Write the program's version.
    Version,
}

/// Why words ask for nothing.
#[derive(Clone, Copy, Debug, Drop, PartialEq, Eq)]
pub enum WordsError {
    /// They are those of no command.
    Usage,
    NoMemory,
}

impl From<AllocError> for WordsError {
    ghost use Rattle.sp_words.specs.declared.job.WordsError.{WordsError};

    ghost from_gives = { λ _ e. e ≡ WordsError.NoMemory };

    fn from(_: AllocError) -> Self {
        WordsError::NoMemory
    }
}
