//! What a session answers.

ghost use Rattle.std.specs.Prelude.{◌≡◌};
ghost use Rattle.sp_session.specs.declared.answers.ObserveError.TheVariants as errors;

use sp_dd::NoMemory;
use std::alloc::AllocError;

/// An answer: the greatest member of an edition at the session's belief, and that member's action. All but the value stand by
/// number.
#[derive(Clone, Copy, Debug, Drop, PartialEq, Eq)]
pub struct Answer {
    pub edition: u64,
    /// The id of the member.
    pub member: u64,
    pub action: u64,
    /// The sum over all states of the session's weights times the member's values, in ticks of 10^-9 times weight.
    pub value: i128,
}

/// Why a session didn't take an observation.
#[derive(Clone, Copy, Debug, Drop, PartialEq, Eq)]
pub enum ObserveError {
    /// No answer came since the beginning or since the last observation that was taken.
    NoAction,
    /// The belief rules the observation out: the next weights before scaling are zero at each state.
    Unseen,
    NoMemory,
}

impl From<NoMemory> for ObserveError {
    ghost from_gives = { λ _ e. e ≡ errors.NoMemory };

    fn from(_: NoMemory) -> ObserveError {
        ObserveError::NoMemory
    }
}

impl From<AllocError> for ObserveError {
    ghost from_gives = { λ _ e. e ≡ errors.NoMemory };

    fn from(_: AllocError) -> ObserveError {
        ObserveError::NoMemory
    }
}
