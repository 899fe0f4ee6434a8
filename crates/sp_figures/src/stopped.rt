//! Why the lines weren't taken to their end.

use sp_dd::NoMemory;
use sp_outside::{Failed, ReadError};
use std::alloc::{AllocError, AllocFailed};
use std::num::ParseIntError;
use std::str::Utf8Error;

/// Why the lines weren't taken to their end: want of memory, a line that has no meaning, or a fault of reading or writing.
#[derive(Clone, Copy, Drop)]
pub struct Stopped;

impl From<AllocError> for Stopped {
    fn from(_: AllocError) -> Self {
        Stopped
    }
}

impl<T: Drop> From<AllocFailed<T>> for Stopped {
    fn from(_: AllocFailed<T>) -> Self {
        Stopped
    }
}

impl From<NoMemory> for Stopped {
    fn from(_: NoMemory) -> Self {
        Stopped
    }
}

impl From<Failed> for Stopped {
    fn from(_: Failed) -> Self {
        Stopped
    }
}

impl From<ReadError> for Stopped {
    fn from(_: ReadError) -> Self {
        Stopped
    }
}

impl From<ParseIntError> for Stopped {
    fn from(_: ParseIntError) -> Self {
        Stopped
    }
}

impl From<Utf8Error> for Stopped {
    fn from(_: Utf8Error) -> Self {
        Stopped
    }
}
