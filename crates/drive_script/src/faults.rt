//! Why a run of a script ends before its last page.

ghost use Rattle.std.specs.Prelude.{Some};

use dsd_addresses::LimitFault;
use metrics_core::Memory;
use std::error::Error;
use std::fmt;

/// Why a script's settings are refused.
#[derive(Clone, Copy, Debug, PartialEq, Eq)]
pub enum SettingFault {
    /// There is no quantile, or no bound of buckets.
    Empty,
    /// A bucket of a window has no width.
    ZeroDuration,
    /// A window's span, its number of buckets times their width, passes 64 bits of nanoseconds.
    SpanTooLong,
    /// A native histogram can't have what a line asks for, for this reason.
    Native(&'static str),
    /// The payload limit isn't allowed at the address.
    Limit(LimitFault),
}

impl fmt::Display for SettingFault {
    ghost use Rattle.std.specs.Prelude.{Some};
    ghost use Rattle.drive_script.specs.Faults.{setting_text};

    ghost output = { λ fault. Some (setting_text fault) };

    fn fmt<W: fmt::Write>(&self, f: &mut fmt::Formatter<W>) -> fmt::Result {
        match self {
            SettingFault::Empty => write!(f, "bucket bounds/quantiles cannot be empty"),
            SettingFault::ZeroDuration => write!(f, "bucket durations cannot be set to zero"),
            SettingFault::SpanTooLong => {
                write!(f, "bucket durations exceed 64 bits of nanoseconds")
            }
            SettingFault::Native(reason) => write!(f, "{reason}"),
            SettingFault::Limit(fault) => write!(f, "invalid configuration: {fault}"),
        }
    }
}

impl Error for SettingFault {}

/// Why a script wasn't played to its end.
#[derive(Clone, Copy, Debug, PartialEq, Eq)]
pub enum DriveFault {
    /// The line, from 1, is the first bad one of the script.
    Script { line: u64 },
    /// The setting is the first of the script that is refused.
    Setting(SettingFault),
    /// The source gave more than 67,108,864 bytes.
    TooLong,
    /// The source failed.
    ReadFault,
    /// The sink of the pages failed.
    WriteFault,
    /// Memory was refused.
    Memory,
}

impl fmt::Display for DriveFault {
    ghost use Rattle.std.specs.Prelude.{Some};
    ghost use Rattle.drive_script.specs.Faults.{fault_text};

    ghost output = { λ fault. Some (fault_text fault) };

    fn fmt<W: fmt::Write>(&self, f: &mut fmt::Formatter<W>) -> fmt::Result {
        match self {
            DriveFault::Script { line } => write!(f, "script: line {line}"),
            DriveFault::Setting(fault) => write!(f, "{fault}"),
            DriveFault::TooLong => write!(f, "script: longer than 67108864 bytes"),
            DriveFault::ReadFault => write!(f, "read failed"),
            DriveFault::WriteFault => write!(f, "write failed"),
            DriveFault::Memory => write!(f, "out of memory"),
        }
    }
}

impl Error for DriveFault {}

impl From<Memory> for DriveFault {
    ghost use Rattle.std.specs.Prelude.{◌≡◌};
    ghost use Rattle.drive_script.specs.declared.faults.DriveFault.TheVariants as faults;

    ghost from_gives = { λ _ fault. fault ≡ faults.Memory };

    fn from(_refused: Memory) -> DriveFault {
        DriveFault::Memory
    }
}

impl From<SettingFault> for DriveFault {
    ghost use Rattle.std.specs.Prelude.{◌≡◌};
    ghost use Rattle.drive_script.specs.declared.faults.DriveFault.TheVariants as faults;

    ghost from_gives = { λ setting fault. fault ≡ faults.Setting setting };

    fn from(refused: SettingFault) -> DriveFault {
        DriveFault::Setting(refused)
    }
}
