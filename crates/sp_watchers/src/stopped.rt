//! Why not all was printed.

use sp_dd::NoMemory;
use sp_outside::ReadError;
use std::alloc::{AllocError, AllocFailed};
use std::str::Utf8Error;

/// Why not all was printed: want of memory, a model that can't be read, or an answer that isn't the one to come.
#[derive(Clone, Copy, Drop)]
pub struct Stopped;

impl From<AllocError> for Stopped {
    fn from(_: AllocError) -> Self {
        Stopped
    }
}

impl<T: Drop> From<AllocFailed<T>> for Stopped {
    fn from(_: AllocFailed<T>) -> Self {
        Stopped
    }
}

impl From<NoMemory> for Stopped {
    fn from(_: NoMemory) -> Self {
        Stopped
    }
}

impl From<ReadError> for Stopped {
    fn from(_: ReadError) -> Self {
        Stopped
    }
}

impl From<Utf8Error> for Stopped {
    fn from(_: Utf8Error) -> Self {
        Stopped
    }
}
