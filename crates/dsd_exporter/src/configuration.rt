//! What the state of an exporter is built with.

ghost use Rattle.std.specs.Prelude.{◌≡◌, [], nat_eq};
ghost use Rattle.std.specs.List.{starts_with};
ghost use Rattle.std.specs.Option.{option_copied};
ghost use Rattle.dsd_exporter.specs.State.{own_prefix, prefix_before, timestamp};
ghost use Rattle.dsd_exporter.specs.Exporter.{settings_of};

use metrics_core::Key;
use std::fmt;

/// How flushes add up: conservatively, or aggressively, where counters and gauges carry the moment of the flush.
#[derive(Clone, Copy, Debug, PartialEq, Eq)]
pub enum AggregationMode {
    /// Lines carry no moment.
    Conservative,
    /// The lines of counters and gauges carry the moment of the flush, in whole seconds.
    Aggressive,
}

impl fmt::Display for AggregationMode {
    ghost use Rattle.std.specs.Prelude.{Some};
    ghost use Rattle.dsd_exporter.specs.Exporter.{mode_text};

    ghost output = { λ mode. Some (mode_text mode) };

    fn fmt<W: fmt::Write>(&self, f: &mut fmt::Formatter<W>) -> fmt::Result {
        match self {
            AggregationMode::Conservative => write!(f, "conservative"),
            AggregationMode::Aggressive => write!(f, "aggressive"),
        }
    }
}

/// What a state is built with.
#[derive(Debug, Drop)]
pub struct StateConfiguration {
    /// How flushes add up.
    pub agg_mode: AggregationMode,
    /// Whether the exporter counts its own work.
    pub telemetry: bool,
    /// Whether a histogram sends only a sample of its values.
    pub histogram_sampling: bool,
    /// How many values such a sample has at most.
    pub histogram_reservoir_size: u32,
    /// Whether histograms are sent as distributions.
    pub histograms_as_distributions: bool,
    /// What stands before the name of each series, but for the exporter's own.
    pub global_prefix: Option<String>,
}

impl StateConfiguration {
    /// What stands before the name of a series with this key.
    pub(crate) fn prefix_for(&self, key: &Key) -> Option<&str>
        ensures { option_copied result ≡ prefix_before
            (settings_of self.now).name_prefix key.now.name }
    {
        self.prefix_before(key.name().as_bytes())
    }

    /// What stands before a name.
    pub(crate) fn prefix_before(&self, name: &[u8]) -> Option<&str>
        ensures { option_copied result ≡ prefix_before (settings_of self.now).name_prefix name.now }
    {
        match &self.global_prefix {
            Some(prefix) if !is_own(name) => Some(prefix.as_str()),
            _ => None,
        }
    }

    /// What counters and gauges carry of a moment, in nanoseconds: its whole seconds, or nothing.
    pub(crate) fn timestamp_at(&self, moment: u64) -> Option<u64>
        ensures { result ≡ timestamp (settings_of self.now) [] moment }
    {
        match self.agg_mode {
            AggregationMode::Conservative => None,
            AggregationMode::Aggressive => Some(moment / 1_000_000_000),
        }
    }
}

/// Whether a name is that of one of the exporter's own counters.
fn is_own(name: &[u8]) -> bool
    ensures { result ≡ starts_with nat_eq name.now own_prefix }
{
    name.starts_with(b"datadog.dogstatsd.client")
}
