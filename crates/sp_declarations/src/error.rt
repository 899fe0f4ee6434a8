//! What refuses a text.

ghost use Rattle.std.specs.Prelude.{◌≡◌};
ghost use Rattle.sp_declarations.specs.Steps.{GivesOrRunsOut, unless_refused};

use sp_dd::NoMemory;
use sp_trees::{ModelKind, Refusal};
use std::alloc::{AllocError, AllocFailed};
use thiserror::Error;

/// Why a text has no model.
#[derive(Clone, Copy, Debug, Drop, PartialEq, Eq, Error)]
pub enum ModelError {
    /// `at` is the byte at which the cause begins.
    #[error("the model is refused at byte {at}: {kind:?}")]
    Fault { at: u64, kind: ModelKind },
    #[error("out of memory")]
    NoMemory,
}

impl From<NoMemory> for ModelError {
    ghost use Rattle.sp_declarations.specs.declared.error.ModelError.TheVariants.{NoMemory};

    ghost from_gives = { λ _ e. e ≡ NoMemory };

    fn from(_error: NoMemory) -> ModelError {
        ModelError::NoMemory
    }
}

impl From<AllocError> for ModelError {
    ghost use Rattle.sp_declarations.specs.declared.error.ModelError.TheVariants.{NoMemory};

    ghost from_gives = { λ _ e. e ≡ NoMemory };

    fn from(_error: AllocError) -> ModelError {
        ModelError::NoMemory
    }
}

impl<T: Drop> From<AllocFailed<T>> for ModelError {
    ghost use Rattle.sp_declarations.specs.declared.error.ModelError.TheVariants.{NoMemory};

    ghost from_gives = { λ _ e. e ≡ NoMemory };

    fn from(_error: AllocFailed<T>) -> ModelError {
        ModelError::NoMemory
    }
}

/// The refusal as an error, if there is one. Takes no memory.
pub fn refuse(refused: Option<Refusal>) -> Result<(), ModelError>
    ensures { GivesOrRunsOut (unless_refused refused) result }
{
    match refused {
        None => Ok(()),
        Some(refusal) => Err(ModelError::Fault {
            at: refusal.at,
            kind: refusal.kind,
        }),
    }
}
