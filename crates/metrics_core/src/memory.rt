//! Want of memory, the one refusal that any call which takes memory may answer.

use std::alloc::{AllocError, AllocFailed};
use thiserror::Error;

/// A call was refused memory. Unless the call's own page says otherwise, it left everything as before.
#[derive(Clone, Copy, Debug, PartialEq, Eq, Error)]
#[error("out of memory")]
pub struct Memory;

impl From<AllocError> for Memory {
    fn from(_refused: AllocError) -> Memory {
        Memory
    }
}

impl<T: Drop> From<AllocFailed<T>> for Memory {
    fn from(_refused: AllocFailed<T>) -> Memory {
        Memory
    }
}
