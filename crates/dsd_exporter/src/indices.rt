//! The series by their indices, as lanes find them: counters, then gauges, then histograms, each in order of registration.

ghost use Rattle.std.specs.Prelude.{◌≡◌, ◌<◌, length, set, IfOk, OnErr, slice_get, true};
ghost use Rattle.metrics_registry.specs.Live.{IsNumbered};
ghost use mathlib.Core.Option.{some};
ghost use lib.ListN.{get_elem?};
ghost use Rattle.legal_history.specs.History.{lender, child};
ghost use Rattle.cell_lanes.specs.Things.{Thing, TookBack, root_of};
ghost use Rattle.cell_lanes.specs.Lanes.{SettledAt};
ghost use Rattle.dsd_exporter.specs.declared.lanes.SeriesEntry.{SeriesEntry};
ghost use Rattle.dsd_exporter.specs.declared.lanes.SeriesCell.{SeriesCell};
ghost use Rattle.dsd_exporter.specs.LanePasses.{things_of, frame_of, ids_of, pass_known, IsPassOf, IsIndex, Lasts, StandsAt};

use crate::lanes::LanePass;
use crate::state::State;
use metrics_core::{Memory, MetricKind, SeriesId};
use std::alloc::Global;
use std::sync::Wait;

/// Where a series stands among those of its kind, from 0.
#[derive(Clone, Copy)]
pub(crate) enum Place {
    /// A counter.
    Counter(usize),
    /// A gauge.
    Gauge(usize),
    /// A histogram.
    Histogram(usize),
}

impl State {
    /// The index under which lanes find a series: that of a counter among the counters, that of a gauge behind them, and that of
    /// a histogram behind both. It is `None` exactly where no series has the id. It is found by a search in the order of numbers.
    pub fn index_of(&self, id: SeriesId) -> Option<usize>
        ensures index { IsIndex id self.now result }
        ensures numbered { IsNumbered self.now.series }
    {
        if let Some(place) = self.series.place_of_counter(id) {
            return Some(place);
        }
        // The clauses on sums need how many there are.
        let _count = self.series.count();
        let counters = self.series.counter_count();
        if let Some(place) = self.series.place_of_gauge(id) {
            return Some(counters + place);
        }
        let place = self.series.place_of_histogram(id)?;
        Some(counters + (self.series.gauge_count() + place))
    }

    /// How many series there are.
    pub fn series_count(&self) -> usize
        ensures count { result ≡ length (things_of self.now) }
        ensures numbered { IsNumbered self.now.series }
    {
        // The clause on numbers needs how many were made.
        let _made = self.series.made();
        self.series.count()
    }

    /// The index of a series, as `index_of` answers it. The search begins at the place among those of its kind where the series
    /// was found last, which `guess` keeps; it may be any number, and saves time alone.
    pub fn index_near(&self, id: SeriesId, guess: &mut u32) -> Option<usize>
        ensures index { IsIndex id self.now result }
        ensures numbered { IsNumbered self.now.series }
    {
        let begin = self.begin_of(id.kind);
        let near = begin.saturating_add(*guess as usize);
        if self.stands_at(id, near) {
            // The clause on numbers needs how many were made.
            let _made = self.series.made();
            return Some(near);
        }
        let index = self.index_of(id)?;
        *guess = u32::try_from(index.saturating_sub(begin)).unwrap_or(0);
        Some(index)
    }

    /// Whether the series with this index has the id.
    fn stands_at(&self, id: SeriesId, index: usize) -> bool
        ensures { result ≡ true → get_elem? (ids_of self.now) index ≡ some id }
    {
        match self.id_at(index) {
            Some(own) => own == id,
            None => false,
        }
    }

    /// The id of the series with this index, if there is one.
    fn id_at(&self, index: usize) -> Option<SeriesId>
        ensures { result ≡ slice_get (ids_of self.now) index }
    {
        match self.place_at(index) {
            Place::Counter(place) => self.series.counters().id(place),
            Place::Gauge(place) => self.series.gauges().id(place),
            Place::Histogram(place) => self.series.histograms().id(place),
        }
    }

    /// The place of the series with this index. An index past all series has a place past the histograms.
    fn place_at(&self, index: usize) -> Place
        ensures { StandsAt index self.now result }
    {
        let counters = self.series.counter_count();
        if index < counters {
            return Place::Counter(index);
        }
        let behind = index - counters;
        let gauges = self.series.gauge_count();
        if behind < gauges {
            Place::Gauge(behind)
        } else {
            Place::Histogram(behind - gauges)
        }
    }

    /// Where the indices of the series of a kind begin.
    fn begin_of(&self, kind: MetricKind) -> usize {
        match kind {
            MetricKind::Counter => 0,
            MetricKind::Gauge => self.series.counter_count(),
            MetricKind::Histogram => self.series.counter_count() + self.series.gauge_count(),
        }
    }

    /// Lends a new pass of the series with this index to a lane.
    pub(crate) fn lend_to_lane(&mut self, alloc: Global, index: usize) -> Result<LanePass, Memory>
        requires here { index < length (things_of self.old) }
        ensures lent { IfOk result (λ lent. (t : Thing SeriesEntry SeriesCell)
            → get_elem? (things_of self.old) index ≡ some t
            → (u : Thing SeriesEntry SeriesCell) × (u.root ≡ lender t.root) × Lasts t.fixed u.fixed × IsPassOf u.fixed lent × (pass_known lent ≡ child t.root)
            × (things_of self.new ≡ set (things_of self.old) index u)) }
        ensures refused { OnErr result (things_of self.new ≡ things_of self.old) }
        ensures frame { frame_of self.new ≡ frame_of self.old }
    {
        match self.place_at(index) {
            Place::Counter(place) => {
                let counter = self.series.counter_at(place).lend_to_lane(alloc)?;
                Ok(LanePass::Counter(counter))
            }
            Place::Gauge(place) => {
                let gauge = self.series.gauge_at(place).lend_to_lane(alloc)?;
                Ok(LanePass::Gauge(gauge))
            }
            Place::Histogram(place) => {
                let histogram = self.series.histogram_at(place).lend_to_lane(alloc)?;
                Ok(LanePass::Histogram(histogram))
            }
        }
    }

    /// Takes a lane's pass of the series with this index back.
    pub(crate) fn take_from_lane(&mut self, index: usize, lent: LanePass)
        requires here { index < length (things_of self.old) }
        requires lent { (t : Thing SeriesEntry SeriesCell)
            → get_elem? (things_of self.old) index ≡ some t → IsPassOf t.fixed lent }
        ensures taken { (t : Thing SeriesEntry SeriesCell)
            → get_elem? (things_of self.old) index ≡ some t
            → (u : Thing SeriesEntry SeriesCell) × TookBack t.root (pass_known lent) u.root × (u.fixed ≡ t.fixed) × (things_of self.new ≡ set (things_of self.old) index u) }
        ensures frame { frame_of self.new ≡ frame_of self.old }
    {
        match lent {
            LanePass::Counter(counter) => self.series.counter_at(index).take_from_lane(counter),
            LanePass::Gauge(gauge) => {
                let counters = self.series.counter_count();
                self.series.gauge_at(index - counters).take_from_lane(gauge);
            }
            LanePass::Histogram(histogram) => {
                let values = self.series.counter_count() + self.series.gauge_count();
                self.series
                    .histogram_at(index - values)
                    .take_from_lane(histogram);
            }
        }
    }

    /// With no pass of the series with this index out, makes sure that the exporter knows whose each call on it is. It changes
    /// nothing.
    pub(crate) fn settle_one<R: Wait>(&mut self, rt: &R, index: usize)
        requires here { index < length (things_of self.old) }
        requires home { (t : Thing SeriesEntry SeriesCell)
            → get_elem? (things_of self.old) index ≡ some t → (t.root.number ≡ 0)
            × (t.root.out ≡ 0) }
        ensures same { things_of self.new ≡ things_of self.old }
        ensures settled { SettledAt root_of (things_of self.old) index }
        ensures frame { frame_of self.new ≡ frame_of self.old }
    {
        match self.place_at(index) {
            Place::Counter(place) => self.series.counter_at(place).settle(rt),
            Place::Gauge(place) => self.series.gauge_at(place).settle(rt),
            Place::Histogram(place) => self.series.histogram_at(place).settle(rt),
        }
    }
}
