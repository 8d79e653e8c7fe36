//! Why a call on a handle was refused.

use metrics_core::Memory;
use thiserror::Error;

/// The value is out of the range of what a gauge or a histogram keeps.
#[derive(Clone, Copy, Debug, PartialEq, Eq, Error)]
#[error("the value is out of range")]
pub struct OutOfRange;

/// Why a histogram did not record a value.
#[derive(Clone, Copy, Debug, PartialEq, Eq, Error)]
pub enum RecordFault {
    /// The value is out of range.
    #[error("the value is out of range")]
    OutOfRange,
    /// Memory was refused.
    #[error("out of memory")]
    Memory,
}

impl From<Memory> for RecordFault {
    ghost use Rattle.std.specs.Prelude.{◌≡◌};
    ghost use Rattle.metrics_facade.specs.declared.faults.RecordFault.TheVariants as faults;

    ghost from_gives = { λ _ fault. fault ≡ faults.Memory };

    fn from(_refused: Memory) -> RecordFault {
        RecordFault::Memory
    }
}
