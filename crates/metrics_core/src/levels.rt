//! How talkative a metric is.

ghost use Rattle.std.specs.Prelude.{◌≡◌, find, IfOk, IfErr, Ok};
ghost use Rattle.std.specs.Str.{trim};
ghost use Rattle.metrics_core.specs.declared.levels.LevelFault.TheVariants as faults;
ghost use Rattle.metrics_core.specs.Levels.{has_word};

use crate::Memory;
use std::alloc::{AllocError, Global};
use std::error::Error;
use std::fmt;

/// How talkative a metric is. Levels ascend from `Trace` to `Error`.
#[derive(Clone, Copy, Debug, PartialEq, Eq, PartialOrd, Ord, Hash)]
pub enum Level {
    Trace,
    Debug,
    Info,
    Warn,
    Error,
}

const LEVELS: [Level; 5] = [
    Level::Trace,
    Level::Debug,
    Level::Info,
    Level::Warn,
    Level::Error,
];

/// Why a text gave no level.
#[derive(Debug, Drop)]
pub enum LevelFault {
    /// The text, without the white space around it, names no level.
    Unknown(String),
    /// Memory for that text was refused.
    Memory,
}

/// The first level of a list that has a word.
fn level_among(levels: &[Level], word: &str) -> Option<Level>
    ensures { result ≡ find (has_word word.now) levels.now }
{
    levels.iter().copied().find(|level| level.has_word(word))
}

impl Level {
    ghost use Rattle.metrics_core.specs.declared.levels.Level.{Level as LevelOf};
    ghost use Rattle.metrics_core.specs.Levels.{IsWordOf, NamesWord};

    /// The level of the most detail.
    pub const TRACE: Level = Level::Trace;

    /// The level for those who look for a fault.
    pub const DEBUG: Level = Level::Debug;

    /// The level for what is of use at all times.
    pub const INFO: Level = Level::Info;

    /// The level for what may go wrong.
    pub const WARN: Level = Level::Warn;

    /// The level for what went wrong.
    pub const ERROR: Level = Level::Error;

    /// Whether a text is the word of the level in lower case or in upper case.
    fn has_word(self, word: &str) -> bool
        ensures { result ≡ has_word word.now self }
    {
        let (lower, upper) = match self {
            Level::Trace => ("trace", "TRACE"),
            Level::Debug => ("debug", "DEBUG"),
            Level::Info => ("info", "INFO"),
            Level::Warn => ("warn", "WARN"),
            Level::Error => ("error", "ERROR"),
        };
        lower == word || upper == word
    }

    /// The level that a text names in lower case or in upper case. White space around the word is left out.
    pub fn try_from_text(alloc: Global, text: &str) -> Result<Level, LevelFault>
        ensures known { (level : LevelOf) → IsWordOf level (trim text.now) → result ≡ Ok level }
        ensures others { IfOk result (λ level. IsWordOf level (trim text.now)) }
        ensures unknown { IfErr result (NamesWord (trim text.now)) }
    {
        let word = text.trim();
        match level_among(&LEVELS, word) {
            Some(level) => Ok(level),
            None => Err(LevelFault::Unknown(String::from_str(alloc, word)?)),
        }
    }
}

impl From<AllocError> for LevelFault {
    ghost from_gives = { λ _ fault. fault ≡ faults.Memory };

    fn from(_refused: AllocError) -> LevelFault {
        LevelFault::Memory
    }
}

impl From<Memory> for LevelFault {
    ghost from_gives = { λ _ fault. fault ≡ faults.Memory };

    fn from(_refused: Memory) -> LevelFault {
        LevelFault::Memory
    }
}

impl fmt::Display for LevelFault {
    ghost use Rattle.std.specs.Prelude.{Some};
    ghost use Rattle.metrics_core.specs.Levels.{level_fault_text};

    ghost output = { λ fault. Some (level_fault_text fault) };

    fn fmt<W: fmt::Write>(&self, f: &mut fmt::Formatter<W>) -> fmt::Result {
        match self {
            LevelFault::Unknown(word) => write!(
                f,
                "unknown log level: {word} (expected one of 'trace', 'debug', 'info', 'warn', or 'error')"
            ),
            LevelFault::Memory => write!(f, "out of memory"),
        }
    }
}

impl Error for LevelFault {}
