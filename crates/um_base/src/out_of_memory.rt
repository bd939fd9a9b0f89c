//! Want of memory.

use std::alloc::{AllocError, AllocFailed};

/// Memory ran out. It says nothing else.
#[derive(Clone, Copy, Debug, PartialEq, Eq)]
pub struct OutOfMemory;

impl From<AllocError> for OutOfMemory {
    fn from(_e: AllocError) -> OutOfMemory {
        OutOfMemory
    }
}

impl<T: Drop> From<AllocFailed<T>> for OutOfMemory {
    fn from(_e: AllocFailed<T>) -> OutOfMemory {
        OutOfMemory
    }
}
