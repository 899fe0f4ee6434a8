//! Why a desk refuses a call.

ghost use Rattle.std.specs.Prelude.{◌≡◌};
ghost use Rattle.sp_desk.specs.declared.errors.AskError.TheVariants as ask;

use sp_dd::NoMemory;

/// No session of that name is open.
#[derive(Clone, Copy, Debug, Drop, PartialEq, Eq)]
pub struct NotOpen;

/// Why a session gave no answer, or was told nothing.
#[derive(Clone, Copy, Debug, Drop, PartialEq, Eq)]
pub enum AskError {
    /// No session of that name is open.
    NotOpen,
    NoMemory,
}

impl From<NoMemory> for AskError {
    ghost from_gives = { λ _ e. e ≡ ask.NoMemory };

    fn from(_: NoMemory) -> AskError {
        AskError::NoMemory
    }
}

/// Why a session didn't take an observation.
#[derive(Clone, Copy, Debug, Drop, PartialEq, Eq)]
pub enum DeskError {
    /// No session of that name is open.
    NotOpen,
    /// No answer came since the beginning or since the last observation that was taken.
    NoAction,
    /// The belief rules the observation out.
    Unseen,
    NoMemory,
}
