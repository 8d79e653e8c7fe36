//! The values that a script is read into. Handles count the register lines of the whole script, from 0.

ghost use Rattle.std.specs.Prelude.{◌≡◌, []};
ghost use Rattle.drive_script.specs.Script.{kind_of, only_globals};
ghost use Rattle.drive_script.specs.Texts.{act_of, settings_of};
ghost use Rattle.drive_script.specs.Valid.{sample_count};

use metrics_core::{Fixed, Key, MetricKind, Unit};
use metrics_registry::MetricKindMask;
use prom_format::Matcher;
use std::alloc::Global;
use std::num::NonZeroU32;

/// A script: its settings, and its rounds, in the order in which they are played.
#[derive(Drop)]
pub struct Script {
    pub settings: Settings,
    pub rounds: Vec<Round>,
}

/// What the header lines of a script say, and no more: a line that isn't there is a none, a false, or no entry of a list.
#[derive(Drop)]
pub struct Settings {
    /// The quantiles of summaries, as they stand.
    pub quantiles: Option<Vec<Fixed>>,
    /// The bounds of histograms, as they stand.
    pub buckets: Option<Vec<Fixed>>,
    /// The bounds of histograms with names that match.
    pub buckets_for: Vec<(Matcher, Vec<Fixed>)>,
    /// The factor, the greatest number of buckets and the threshold of native histograms with names that match, as they stand.
    pub native_for: Vec<(Matcher, Fixed, u32, Fixed)>,
    /// How many buckets the window of a summary has, and the nanoseconds of each.
    pub summary: Option<(NonZeroU32, u64)>,
    /// The kinds of series that fall idle, and after how many nanoseconds.
    pub idle: Option<(MetricKindMask, u64)>,
    /// Whether names follow the conventions of Prometheus.
    pub naming: bool,
    /// Whether names end with their units.
    pub units: bool,
    /// The key and the value of each global label.
    pub globals: Vec<(String, String)>,
    /// How many bytes a payload may have, as it stands.
    pub dsd_limit: Option<u64>,
    /// Whether values are aggregated as far as they can be.
    pub dsd_aggressive: bool,
    /// What all names in payloads begin with.
    pub dsd_prefix: Option<String>,
    /// The key and the value of each tag of all lines in payloads.
    pub dsd_globals: Vec<(String, String)>,
    /// Whether the lines of histograms are of the kind `h`, and not `d`.
    pub dsd_histograms: bool,
    /// How many series of one kind and metric name the Prometheus exporter makes at most. Past it registrations go to an
    /// overflow series.
    pub series_limit: Option<NonZeroU32>,
}

impl Settings {
    /// The settings of a script without header lines.
    pub fn new(alloc: Global) -> Settings
        ensures { settings_of result ≡ only_globals [] }
    {
        Settings {
            quantiles: None,
            buckets: None,
            buckets_for: Vec::new(alloc),
            native_for: Vec::new(alloc),
            summary: None,
            idle: None,
            naming: false,
            units: false,
            globals: Vec::new(alloc),
            dsd_limit: None,
            dsd_aggressive: false,
            dsd_prefix: None,
            dsd_globals: Vec::new(alloc),
            dsd_histograms: false,
            series_limit: None,
        }
    }
}

/// One round: its moment in nanoseconds, what it sets up, and its calls.
#[derive(Drop)]
pub struct Round {
    pub moment: u64,
    pub setup: Vec<Setup>,
    pub calls: Vec<CallLine>,
}

/// What a setup line does on the exporters.
#[derive(Drop)]
pub enum Setup {
    /// Describes the metric of a kind and a name, and may say its unit.
    Describe {
        kind: MetricKind,
        name: String,
        unit: Option<Unit>,
        text: String,
    },
    /// Registers a series of a kind under a key.
    Register {
        kind: MetricKind,
        key: Key,
    },
}

/// A call of a lane on the series of a register line.
#[derive(Clone, Copy, Debug, PartialEq, Eq)]
pub struct CallLine {
    /// The lane, 0 to 7.
    pub lane: u8,
    /// The number of the register line, from 0.
    pub handle: u32,
    pub act: Act,
}

/// What a call does.
#[derive(Clone, Copy, Debug, PartialEq, Eq)]
pub enum Act {
    /// Adds to a counter, modulo 2^64.
    Inc(u64),
    /// Raises a counter to a total, where that is greater.
    Abs(u64),
    /// Adds to a gauge; the sum wraps in 64 bits of billionths.
    Add(Fixed),
    /// Subtracts from a gauge; the difference wraps in 64 bits of billionths.
    Sub(Fixed),
    /// Sets a gauge.
    Set(Fixed),
    /// Records one sample in a histogram.
    Rec(Fixed),
    /// Records a sample in a histogram so many times.
    RecN(Fixed, u32),
}

impl Act {
    /// The kind of the series that it is a call on.
    pub fn kind(&self) -> MetricKind
        ensures { result ≡ kind_of (act_of self.now) }
    {
        match self {
            Act::Inc(_) | Act::Abs(_) => MetricKind::Counter,
            Act::Add(_) | Act::Sub(_) | Act::Set(_) => MetricKind::Gauge,
            Act::Rec(_) | Act::RecN(..) => MetricKind::Histogram,
        }
    }

    /// How many samples it records.
    pub fn samples(&self) -> u32
        ensures { result ≡ sample_count (act_of self.now) }
    {
        match self {
            Act::Rec(_) => 1,
            Act::RecN(_, count) => *count,
            Act::Inc(_) | Act::Abs(_) | Act::Add(_) | Act::Sub(_) | Act::Set(_) => 0,
        }
    }
}
