// Want of memory, where it is the only error.

use std::alloc::{AllocError, AllocFailed};

/// No memory was left.
///
/// It comes from an allocation that failed, by `?`, and from nowhere else.
#[derive(Clone, Copy, Debug, PartialEq, Eq)]
pub struct NoMemory;

impl From<AllocError> for NoMemory {
    fn from(_error: AllocError) -> NoMemory {
        NoMemory
    }
}

impl<T: Drop> From<AllocFailed<T>> for NoMemory {
    fn from(_failed: AllocFailed<T>) -> NoMemory {
        NoMemory
    }
}
