//! What the exporter refuses.

ghost use Rattle.std.specs.Prelude.{◌≡◌};
ghost use Rattle.prom_exporter.specs.declared.errors.BuildError.TheVariants as errors;

use metrics_core::{Failed, Memory};
use thiserror::Error;

/// A refusal of the exporter.
#[derive(Debug, Drop, PartialEq, Eq, Error)]
pub enum BuildError {
    /// Bounds or quantiles were set of which there are none.
    #[error("bucket bounds/quantiles cannot be empty")]
    EmptyBucketsOrQuantiles,
    /// The buckets of summaries were to last no time.
    #[error("bucket durations cannot be set to zero")]
    ZeroBucketDuration,
    /// The buckets of a summary's window together are longer than 64 bits of nanoseconds.
    #[error("bucket durations exceed 64 bits of nanoseconds")]
    SpanTooLong,
    /// The settings of a native histogram are refused, for this reason.
    #[error("{0}")]
    Native(&'static str),
    /// A text, which is this one, writes no address and no network.
    #[error("failed to parse address as a valid IP address/subnet: {0}")]
    InvalidAllowlistAddress(String),
    /// The listener failed.
    #[error("failed to create HTTP listener")]
    FailedToCreateHTTPListener,
    /// The sink failed.
    #[error("write failed")]
    WriteFault,
    /// Memory was refused.
    #[error("out of memory")]
    Memory,
}

impl From<Memory> for BuildError {
    ghost from_gives = { λ _ error. error ≡ errors.Memory };

    fn from(_refused: Memory) -> BuildError {
        BuildError::Memory
    }
}

impl From<Failed> for BuildError {
    ghost from_gives = { λ _ error. error ≡ errors.WriteFault };

    fn from(_failed: Failed) -> BuildError {
        BuildError::WriteFault
    }
}
