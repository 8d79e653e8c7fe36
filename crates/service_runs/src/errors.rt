//! Why a service is not run.

use metrics_core::Memory;
use std::io;
use thiserror::Error;

/// Why a service was not run. Nothing was started then.
#[derive(Debug, Drop, Error)]
pub enum ServiceError {
    /// The listener failed, for this reason.
    #[error("failed to create HTTP listener: {0}")]
    FailedToCreateHTTPListener(io::Error),
    /// Memory was refused.
    #[error("out of memory")]
    Memory,
}

impl From<Memory> for ServiceError {
    fn from(_refused: Memory) -> ServiceError {
        ServiceError::Memory
    }
}

impl From<io::Error> for ServiceError {
    fn from(reason: io::Error) -> ServiceError {
        ServiceError::FailedToCreateHTTPListener(reason)
    }
}
