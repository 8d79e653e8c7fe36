//! Why a value was not recorded.

use metrics_core::Failed;
use metrics_facade::RecordFault;
use thiserror::Error;

/// Why a histogram did not record a value.
#[derive(Clone, Copy, Debug, PartialEq, Eq, Error)]
pub enum RecordError {
    /// The value is out of range.
    #[error("the value is out of range")]
    OutOfRange,
    /// Memory was refused.
    #[error("out of memory")]
    Memory,
    /// The clock could not be read.
    #[error("the clock can't be read")]
    Clock,
}

impl From<RecordFault> for RecordError {
    ghost use Rattle.service_metrics.specs.Heard.{error_of};
    ghost use Rattle.std.specs.Prelude.{◌≡◌};

    ghost from_gives = { λ fault error. error ≡ error_of fault };

    fn from(fault: RecordFault) -> RecordError {
        match fault {
            RecordFault::OutOfRange => RecordError::OutOfRange,
            RecordFault::Memory => RecordError::Memory,
        }
    }
}

impl From<Failed> for RecordError {
    ghost use Rattle.service_metrics.specs.declared.faults.RecordError.TheVariants as errors;
    ghost use Rattle.std.specs.Prelude.{◌≡◌};

    ghost from_gives = { λ _ error. error ≡ errors.Clock };

    fn from(_failed: Failed) -> RecordError {
        RecordError::Clock
    }
}
