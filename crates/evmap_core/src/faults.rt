//! What the map refuses.
ghost use Rattle.std.specs.Prelude.{◌≡◌};

use metrics_core::Memory;
use thiserror::Error;

/// A refusal of the map.
#[derive(Clone, Copy, Debug, PartialEq, Eq, Error)]
pub enum EvmapFault {
    /// Memory was refused.
    #[error("out of memory")]
    Memory,
    /// No place is left for a reader.
    #[error("no place for a reader")]
    NoPlace,
}

impl From<Memory> for EvmapFault {
    ghost use Rattle.evmap_core.specs.declared.faults.EvmapFault.TheVariants as faults;

    ghost from_gives = { λ _ fault. fault ≡ faults.Memory };

    fn from(_refused: Memory) -> EvmapFault {
        EvmapFault::Memory
    }
}
