//! Why an exporter was not built.

ghost use Rattle.std.specs.Prelude.{Some};

use std::alloc::AllocError;
use std::error::Error;
use std::fmt;

/// Why a payload limit is refused. Each carries the limit, in bytes.
#[derive(Clone, Copy, Debug, PartialEq, Eq)]
pub enum LimitFault {
    /// No payload is so short.
    Low(u64),
    /// No UDP datagram is so long.
    Udp(u64),
    /// No payload is so long.
    Bound(u64),
}

impl fmt::Display for LimitFault {
    ghost use Rattle.dsd_addresses.specs.Faults.{limit_fault_text};

    ghost output = { λ fault. Some (limit_fault_text fault) };

    fn fmt<W: fmt::Write>(&self, f: &mut fmt::Formatter<W>) -> fmt::Result {
        match self {
            LimitFault::Low(limit) => write!(
                f,
                "maximum payload length ({limit} bytes) is below the minimum (6 bytes)"
            ),
            LimitFault::Udp(limit) => write!(
                f,
                "maximum payload length ({limit} bytes) exceeds UDP datagram maximum length (65527 bytes)"
            ),
            LimitFault::Bound(limit) => write!(
                f,
                "maximum payload length ({limit} bytes) exceeds theoretical upper bound (4294967295 bytes)"
            ),
        }
    }
}

impl Error for LimitFault {}

/// Why an exporter was not built.
#[derive(Debug, Drop, PartialEq, Eq)]
pub enum BuildError {
    /// A setting is refused.
    InvalidConfiguration {
        /// Which one, and why.
        reason: LimitFault,
    },
    /// A text is no address to send to.
    InvalidRemoteAddress {
        /// Why not.
        reason: String,
    },
    /// The program has a recorder already.
    FailedToInstall,
    /// Memory was refused.
    Memory,
}

impl From<AllocError> for BuildError {
    ghost use Rattle.std.specs.Prelude.{◌≡◌};
    ghost use Rattle.dsd_addresses.specs.declared.faults.BuildError.TheVariants as causes;

    ghost from_gives = { λ _ fault. fault ≡ causes.Memory };

    fn from(_refused: AllocError) -> BuildError {
        BuildError::Memory
    }
}

impl fmt::Display for BuildError {
    ghost use Rattle.dsd_addresses.specs.Faults.{build_error_text};

    ghost output = { λ fault. Some (build_error_text fault) };

    fn fmt<W: fmt::Write>(&self, f: &mut fmt::Formatter<W>) -> fmt::Result {
        match self {
            BuildError::InvalidConfiguration { reason } => {
                write!(f, "invalid configuration: {reason}")
            }
            BuildError::InvalidRemoteAddress { reason } => {
                write!(f, "invalid remote address: {reason}")
            }
            BuildError::FailedToInstall => {
                write!(f, "failed to install exporter as global recorder")
            }
            BuildError::Memory => write!(f, "out of memory"),
        }
    }
}

impl Error for BuildError {}
