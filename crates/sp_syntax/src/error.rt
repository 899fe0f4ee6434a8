ghost use Rattle.std.specs.Prelude.{◌≡◌};

use std::alloc::{AllocError, AllocFailed};
use thiserror::Error;

/// What is wrong with the text at the place of a fault.
#[derive(Clone, Copy, Debug, PartialEq, Eq)]
pub enum SyntaxKind {
    /// The word `unnormalized` in a section's place, or `#`, `-` or `/` directly behind `[`.
    Unsupported,
    /// The bracket that would be the 129th open one.
    TooDeep,
    /// The text ends where it may not end, and could go on.
    Unclosed,
    /// Anything else that may not stand there, the end of an empty text too.
    Unexpected,
}

/// Why tokens are no text of the grammar.
#[derive(Clone, Copy, Debug, PartialEq, Eq, Error)]
pub enum SyntaxError {
    /// `at` is the first byte of the first token that can't stand in its place, or the source's length.
    #[error("the text goes wrong at byte {at}: {kind:?}")]
    Fault { at: u64, kind: SyntaxKind },
    #[error("out of memory")]
    NoMemory,
}

impl From<AllocError> for SyntaxError {
    ghost use Rattle.sp_syntax.specs.declared.error.SyntaxError.TheVariants.{NoMemory};

    ghost from_gives = { λ _ e. e ≡ NoMemory };

    fn from(_error: AllocError) -> SyntaxError {
        SyntaxError::NoMemory
    }
}

impl<T: Drop> From<AllocFailed<T>> for SyntaxError {
    ghost use Rattle.sp_syntax.specs.declared.error.SyntaxError.TheVariants.{NoMemory};

    ghost from_gives = { λ _ e. e ≡ NoMemory };

    fn from(_error: AllocFailed<T>) -> SyntaxError {
        SyntaxError::NoMemory
    }
}
