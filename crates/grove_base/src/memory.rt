use std::alloc::{AllocError, AllocFailed};
use thiserror::Error;

/// A growth was refused. It is the error of calls that can fail for no other reason.
#[derive(Clone, Copy, Debug, PartialEq, Eq, Error)]
#[error("memory")]
pub struct NoMemory;

impl From<AllocError> for NoMemory {
    fn from(_error: AllocError) -> NoMemory {
        NoMemory
    }
}

impl<T: Drop> From<AllocFailed<T>> for NoMemory {
    fn from(_error: AllocFailed<T>) -> NoMemory {
        NoMemory
    }
}
