//! When a series falls idle: sets of kinds, and the rule by which a page notes and removes series.

ghost use Rattle.std.specs.Prelude.{◌≡◌, [], ◌∷◌, is_some, unwrap_or};
ghost use Rattle.metrics_core.specs.declared.kinds.MetricKind.TheVariants.{Counter, Gauge, Histogram};
ghost use Rattle.metrics_core.specs.Kinds.{mask_has};
ghost use Rattle.metrics_registry.specs.Recency.{note_left};
ghost use Rattle.metrics_registry.specs.Masks.{no_kinds, only, all_kinds, union_of, idle_of};

use metrics_core::MetricKind;
use std::marker::Model;

/// A set of kinds of series.
#[derive(Clone, Copy, Debug, PartialEq, Eq)]
pub struct MetricKindMask {
    counters: bool,
    gauges: bool,
    histograms: bool,
}

impl Model for MetricKindMask {
    ghost use Rattle.metrics_core.specs.Kinds.{KindMask};

    ghost Value = { KindMask };

    ghost view = { λ mask. record { counters = mask.counters; gauges = mask.gauges; histograms = mask.histograms } };

    ghost inverse = { λ mask. record { counters = mask.counters; gauges = mask.gauges; histograms = mask.histograms } };
}

impl MetricKindMask {
    /// No kind.
    pub const NONE: MetricKindMask = MetricKindMask {
        counters: false,
        gauges: false,
        histograms: false,
    };

    /// Counters alone.
    pub const COUNTER: MetricKindMask = MetricKindMask {
        counters: true,
        ..MetricKindMask::NONE
    };

    /// Gauges alone.
    pub const GAUGE: MetricKindMask = MetricKindMask {
        gauges: true,
        ..MetricKindMask::NONE
    };

    /// Histograms alone.
    pub const HISTOGRAM: MetricKindMask = MetricKindMask {
        histograms: true,
        ..MetricKindMask::NONE
    };

    /// Every kind.
    pub const ALL: MetricKindMask = MetricKindMask {
        counters: true,
        gauges: true,
        histograms: true,
    };

    /// The sets that have names here: no kind, each kind alone, and every kind.
    pub fn named() -> [MetricKindMask; 5]
        ensures { result ≡ no_kinds ∷ only Counter ∷ only Gauge ∷ only Histogram ∷ all_kinds ∷ [] }
    {
        [
            MetricKindMask::NONE,
            MetricKindMask::COUNTER,
            MetricKindMask::GAUGE,
            MetricKindMask::HISTOGRAM,
            MetricKindMask::ALL,
        ]
    }

    /// The kinds that are in either set.
    pub fn union(self, other: MetricKindMask) -> MetricKindMask
        ensures { result ≡ union_of self other }
    {
        MetricKindMask {
            counters: self.counters || other.counters,
            gauges: self.gauges || other.gauges,
            histograms: self.histograms || other.histograms,
        }
    }

    /// Whether the kind is in the set.
    pub fn matches(&self, kind: MetricKind) -> bool
        ensures { result ≡ mask_has self.now kind }
    {
        match kind {
            MetricKind::Counter => self.counters,
            MetricKind::Gauge => self.gauges,
            MetricKind::Histogram => self.histograms,
        }
    }
}

/// Which series fall idle, and when. A contract sees the kinds with the timeout in nanoseconds, or nothing where there is
/// no timeout.
#[derive(Debug, Drop)]
pub struct Recency {
    mask: MetricKindMask,
    timeout: Option<u64>,
}

impl Model for Recency {
    ghost use Rattle.std.specs.Prelude.{Option};
    ghost use Rattle.metrics_registry.specs.Recency.{Idle};
    ghost use Rattle.metrics_registry.specs.Masks.{idle_of};

    ghost Value = { Option Idle };

    ghost view = { λ recency. idle_of recency.mask recency.timeout };
}

impl Recency {
    /// Series of these kinds fall idle after the timeout, in nanoseconds; none do where there is no timeout.
    pub fn new(mask: MetricKindMask, timeout: Option<u64>) -> Recency
        ensures { result ≡ idle_of mask timeout }
    {
        Recency { mask, timeout }
    }

    /// Whether a page at a moment, in nanoseconds, keeps a series with so many updates, and what it notes of it: false
    /// exactly where the series is idle and to be removed. Then the note stays as it was.
    pub fn should_store(
        &self,
        kind: MetricKind,
        noted: &mut Option<(u64, u64)>,
        updates: u64,
        now: u64,
    ) -> bool
        ensures kept { result ≡ is_some (note_left self.now kind noted.old updates now) }
        ensures note { noted.new ≡ unwrap_or
            (note_left self.now kind noted.old updates now) noted.old }
    {
        let Some(timeout) = self.timeout else {
            return true;
        };
        if !self.mask.matches(kind) {
            return true;
        }
        match *noted {
            Some((known, moment)) if known == updates => now <= moment.saturating_add(timeout),
            _ => {
                *noted = Some((updates, now));
                true
            }
        }
    }
}
