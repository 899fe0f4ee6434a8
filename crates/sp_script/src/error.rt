use sp_dd::NoMemory;
use std::alloc::{AllocError, AllocFailed};
use thiserror::Error;

/// What is wrong with a line. Of several the first one here is told.
#[derive(Clone, Copy, Debug, PartialEq, Eq)]
pub enum ScriptKind {
    /// It isn't of the grammar.
    BadLine,
    /// It isn't an `open`, and its session isn't open there.
    NotOpen,
    /// It opens a name that was opened before.
    Twice,
    /// It observes, and the session did not act since its opening or its last `observe`.
    NoAction,
    /// It observes a value that isn't one of its observation variable's.
    UnknownValue,
    /// It opens one session more than this.
    TooMany { limit: u64 },
}

/// Why a text is no script.
#[derive(Clone, Copy, Debug, PartialEq, Eq, Error)]
pub enum ScriptError {
    /// `line` is the number of the first line at fault, from 1; skipped lines count too.
    #[error("line {line}: {kind:?}")]
    Fault { line: u64, kind: ScriptKind },
    #[error("out of memory")]
    NoMemory,
}

impl From<AllocError> for ScriptError {
    ghost use Rattle.std.specs.Prelude.{◌≡◌};
    ghost use Rattle.sp_script.specs.declared.error.ScriptError.TheVariants.{NoMemory};

    ghost from_gives = { λ _ e. e ≡ NoMemory };

    fn from(_error: AllocError) -> ScriptError {
        ScriptError::NoMemory
    }
}

impl<T: Drop> From<AllocFailed<T>> for ScriptError {
    ghost use Rattle.std.specs.Prelude.{◌≡◌};
    ghost use Rattle.sp_script.specs.declared.error.ScriptError.TheVariants.{NoMemory};

    ghost from_gives = { λ _ e. e ≡ NoMemory };

    fn from(_error: AllocFailed<T>) -> ScriptError {
        ScriptError::NoMemory
    }
}

impl From<NoMemory> for ScriptError {
    ghost use Rattle.std.specs.Prelude.{◌≡◌};
    ghost use Rattle.sp_script.specs.declared.error.ScriptError.TheVariants.{NoMemory as no_memory};

    ghost from_gives = { λ _ e. e ≡ no_memory };

    fn from(_error: NoMemory) -> ScriptError {
        ScriptError::NoMemory
    }
}
