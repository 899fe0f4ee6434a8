//! Why bytes are no legal plan file with true values.

use sp_dd::NoMemory;
use sp_filed::PlanKind;
use std::alloc::AllocError;

/// Why bytes are no legal plan file with true values.
#[derive(Drop)]
pub enum JudgeError {
    /// They aren't in form: the first line at fault begins at this byte.
    Fault { at: u64, kind: PlanKind },
    /// They are in form, and what they tell isn't legal or isn't true: what is told of the first event, entry or value that is wrong.
    NotLegal(Vec<u8>),
    NoMemory,
}

impl From<NoMemory> for JudgeError {
    ghost use Rattle.std.specs.Prelude.{◌≡◌};
    ghost use Rattle.sp_judging.specs.declared.error.JudgeError.{JudgeError};

    ghost from_gives = { λ _ e. e ≡ JudgeError.NoMemory };

    fn from(_: NoMemory) -> Self {
        JudgeError::NoMemory
    }
}

impl From<AllocError> for JudgeError {
    ghost use Rattle.std.specs.Prelude.{◌≡◌};
    ghost use Rattle.sp_judging.specs.declared.error.JudgeError.{JudgeError};

    ghost from_gives = { λ _ e. e ≡ JudgeError.NoMemory };

    fn from(_: AllocError) -> Self {
        JudgeError::NoMemory
    }
}
