//! Out of memory, as an answer of its own.
use std::alloc::{AllocError, AllocFailed};
use thiserror::Error;

/// No memory was left. It is the one answer that no clause ties to a cause.
#[derive(Clone, Copy, Debug, Error)]
#[error("out of memory")]
pub struct OutOfMemory;

impl From<AllocError> for OutOfMemory {
    fn from(_error: AllocError) -> OutOfMemory {
        OutOfMemory
    }
}

impl<T: Drop> From<AllocFailed<T>> for OutOfMemory {
    fn from(_error: AllocFailed<T>) -> OutOfMemory {
        OutOfMemory
    }
}
