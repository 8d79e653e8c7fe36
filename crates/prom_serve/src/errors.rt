//! What serving refuses.

ghost use Rattle.std.specs.Prelude.{◌≡◌};
ghost use Rattle.prom_serve.specs.declared.errors.ServeError.TheVariants as errors;

use metrics_core::Memory;
use thiserror::Error;

/// A refusal to serve.
#[derive(Clone, Copy, Debug, PartialEq, Eq, Error)]
pub enum ServeError {
    /// The listener failed.
    #[error("failed to create HTTP listener")]
    FailedToCreateHTTPListener,
    /// Memory was refused.
    #[error("out of memory")]
    Memory,
}

impl From<Memory> for ServeError {
    ghost from_gives = { λ _ error. error ≡ errors.Memory };

    fn from(_refused: Memory) -> ServeError {
        ServeError::Memory
    }
}
