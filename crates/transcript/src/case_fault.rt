//! Why a command of a transcript has no answer.
use b2_base::fault::OutOfMemory;
use std::alloc::{AllocError, AllocFailed};

/// Why a command has no answer. The first two are printed, and the transcript goes on; the last one ends it.
#[derive(Clone, Copy, Debug)]
pub enum CaseFault {
    /// No command of the current part has this name.
    UnknownCommand,
    /// The command takes other words, or its line is no line of words.
    WrongWords,
    OutOfMemory,
}

impl From<AllocError> for CaseFault {
    fn from(_error: AllocError) -> CaseFault {
        CaseFault::OutOfMemory
    }
}

impl<T: Drop> From<AllocFailed<T>> for CaseFault {
    fn from(_error: AllocFailed<T>) -> CaseFault {
        CaseFault::OutOfMemory
    }
}

impl From<OutOfMemory> for CaseFault {
    fn from(_error: OutOfMemory) -> CaseFault {
        CaseFault::OutOfMemory
    }
}
