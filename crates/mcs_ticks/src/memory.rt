use std::alloc::{AllocError, AllocFailed};
use thiserror::Error;

/// Out of memory: the allocator refused, or the request exceeds what can ever be allocated.
#[derive(Clone, Copy, Debug, PartialEq, Eq, Error)]
#[error("no memory")]
pub struct NoMemory;

impl From<AllocError> for NoMemory {
    fn from(_refusal: AllocError) -> Self {
        NoMemory
    }
}

impl<T: Drop> From<AllocFailed<T>> for NoMemory {
    fn from(_refusal: AllocFailed<T>) -> Self {
        NoMemory
    }
}
