//! Why pages aren't relayed.

use metrics_core::Memory;
use thiserror::Error;

/// Why pages weren't read, merged or written.
#[derive(Drop, Debug, Error)]
pub enum RelayFault {
    /// The bytes are no stream of pages, and the line, from 1, is their first bad one.
    #[error("page: line {line}")]
    Syntax { line: u64 },
    /// The family of that name on the page, from 1, doesn't merge with those before it.
    #[error("conflict: page {page} family {name}")]
    Conflict { page: u64, name: String },
    /// The sink failed.
    #[error("write failed")]
    WriteFault,
    /// Memory was refused.
    #[error("out of memory")]
    Memory,
}

impl From<Memory> for RelayFault {
    ghost use Rattle.std.specs.Prelude.{◌≡◌};
    ghost use Rattle.page_relay.specs.declared.faults.RelayFault.TheVariants as faults;

    ghost from_gives = { λ _ fault. fault ≡ faults.Memory };

    fn from(_refused: Memory) -> RelayFault {
        RelayFault::Memory
    }
}
