//! Why the exporters of a service can't be opened.

use metrics_core::Memory;
use prom_exporter::BuildError;
use std::io;
use thiserror::Error;

/// Why an exporter can't be opened. Nothing was started then.
#[derive(Debug, Drop, Error)]
pub enum OpenError {
    /// The address can't be bound, for this reason.
    #[error("failed to create HTTP listener: {0}")]
    FailedToCreateHTTPListener(io::Error),
    /// Pages were to be served at a Unix socket, which nothing here does.
    #[error("failed to create HTTP listener: no pages are served at a Unix socket")]
    UnixSocket,
    /// The settings are refused, for this reason.
    #[error("{0}")]
    Build(BuildError),
}

impl From<BuildError> for OpenError {
    fn from(reason: BuildError) -> OpenError {
        OpenError::Build(reason)
    }
}

impl From<Memory> for OpenError {
    fn from(_refused: Memory) -> OpenError {
        OpenError::Build(BuildError::Memory)
    }
}

impl From<io::Error> for OpenError {
    fn from(reason: io::Error) -> OpenError {
        OpenError::FailedToCreateHTTPListener(reason)
    }
}
