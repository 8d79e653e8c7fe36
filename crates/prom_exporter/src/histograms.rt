//! What the exporter does with its histograms: it registers, lends and drains them.

ghost use Rattle.std.specs.Prelude.{◌≡◌, ◌⊎◌, [], IfOk, OnErr, OnOk, None, unwrap_or};
ghost use Rattle.metrics_core.specs.declared.kinds.MetricKind.TheVariants.{Histogram};
ghost use Rattle.distributions.specs.Recording.{StandsFor};
ghost use Rattle.prom_format.specs.Names.{sanitized_metric_name};
ghost use Rattle.sample_queue.specs.Passes.{view_of};
ghost use Rattle.histogram_series.specs.Series.{with_one_back};
ghost use Rattle.prom_exporter.specs.State.{register, live_series, key_given, number_given, with_series, number_of};
ghost use Rattle.prom_exporter.specs.Stepped.{AreCounted, DrainsEach, DrainsInPart, DrainsWhole, IsCounted};
ghost use Rattle.prom_exporter.specs.Families.{distribution_of};
ghost use Rattle.prom_exporter.specs.Sampled.{unsampled};
ghost use Rattle.prom_exporter.specs.Exporter.{state_of, AllHome, AddsHistogram, ChangesHistogram};
ghost use Rattle.prom_exporter.specs.Lending.{LendsHistogram, LentHistogram, HasNoHistogram};

use crate::lent::Lent;
use crate::sampled::HistogramCell;
use crate::state::PrometheusState;
use distributions::Distribution;
use metrics_core::{Fixed, Key, Memory, MetricKind, SeriesId};
use metrics_facade as facade;
use prom_format::{is_metric_name, sanitize_metric_name};
use sample_queue::{PromHistogram, SamplePass};
use std::alloc::Global;
use std::sync::Wait;

impl PrometheusState {
    /// Registers a histogram, as `register_counter` does a counter: a new one has no samples, and a key that is live takes no memory.
    pub fn register_histogram(&mut self, alloc: Global, key: &Key) -> Result<SeriesId, Memory>
        ensures registered { OnOk result (state_of self.new ≡ register Histogram key.now
            (state_of self.old)) }
        ensures cells { OnOk result ((self.new.series ≡ self.old.series)
            ⊎ AddsHistogram (key_given Histogram key.now (state_of self.old)) self.old self.new) }
        ensures home { AllHome self.old → AllHome self.new }
        ensures settings { self.new.settings ≡ self.old.settings }
        ensures id { IfOk result (λ id.
            id ≡ record {
              kind = Histogram;
              number = number_given Histogram key.now
                  (state_of self.old);
            }) }
        ensures absent { OnErr result (live_series Histogram key.now (state_of self.old) ≡ None) }
        ensures refused { OnErr result (self.new ≡ self.old) }
    {
        // The clause on ids needs how many were made.
        let _made = self.series.made();
        if let Some(id) = self.series.find_histogram(key) {
            return Ok(id);
        }
        self.register_owned_histogram(alloc, key.clone(alloc)?)
    }

    /// Registers a histogram as `register_histogram` does, under a key that the exporter then keeps, where it isn't redirected: it is not
    /// copied. A key that is live takes no memory.
    pub fn register_owned_histogram(&mut self, alloc: Global, key: Key) -> Result<SeriesId, Memory>
        ensures registered { OnOk result (state_of self.new ≡ register Histogram key
            (state_of self.old)) }
        ensures cells { OnOk result ((self.new.series ≡ self.old.series)
            ⊎ AddsHistogram (key_given Histogram key (state_of self.old)) self.old self.new) }
        ensures home { AllHome self.old → AllHome self.new }
        ensures settings { self.new.settings ≡ self.old.settings }
        ensures id { IfOk result (λ id.
            id ≡ record {
              kind = Histogram;
              number = number_given Histogram key
                  (state_of self.old);
            }) }
        ensures absent { OnErr result (live_series Histogram key (state_of self.old) ≡ None) }
        ensures refused { OnErr result (self.new ≡ self.old) }
    {
        match self.redirected_to(alloc, MetricKind::Histogram, &key)? {
            Some(name) => self.redirect(alloc, MetricKind::Histogram, name),
            None => self.put_histogram(alloc, key),
        }
    }

    /// Makes sure that a histogram with a key is live: where none is, a new one goes last, or past 2^64 - 1 series none.
    pub(crate) fn put_histogram(&mut self, alloc: Global, key: Key) -> Result<SeriesId, Memory>
        ensures registered { OnOk result (state_of self.new ≡ with_series Histogram key
            (state_of self.old)) }
        ensures cells { OnOk result ((self.new.series ≡ self.old.series)
            ⊎ AddsHistogram key self.old self.new) }
        ensures home { AllHome self.old → AllHome self.new }
        ensures settings { self.new.settings ≡ self.old.settings }
        ensures id { IfOk result (λ id.
            id ≡ record { kind = Histogram; number = number_of Histogram key (state_of self.old) }) }
        ensures absent { OnErr result (live_series Histogram key (state_of self.old) ≡ None) }
        ensures refused { OnErr result (self.new ≡ self.old) }
    {
        let number = self.series.made();
        if let Some(id) = self.series.find_histogram(&key) {
            return Ok(id);
        }
        if number == u64::MAX {
            return Ok(SeriesId {
                kind: MetricKind::Histogram,
                number,
            });
        }
        let cell = self.new_histogram(alloc, &key)?;
        let Ok(id) = self.series.add_histogram(key, cell) else {
            return Err(Memory);
        };
        Ok(id)
    }

    /// A histogram of no samples, of the kind that follows from the metric name that is made of its key's name.
    fn new_histogram(&self, alloc: Global, key: &Key) -> Result<HistogramCell, Memory>
        ensures { IfOk result (λ made.
            made ≡ unsampled
            (distribution_of self.now.settings (sanitized_metric_name key.now.name))
            made.series.cell) }
    {
        HistogramCell::new(alloc, self.empty_distribution(alloc, key.name())?)
    }

    /// A distribution of no samples, of the kind that follows from the metric name that is made of a name.
    fn empty_distribution(&self, alloc: Global, name: &str) -> Result<Distribution, Memory>
        ensures { IfOk result (StandsFor
            (distribution_of self.now.settings (sanitized_metric_name name.now)) []) }
    {
        if is_metric_name(name) {
            return self.distributions.get_distribution(alloc, name);
        }
        let name = sanitize_metric_name(alloc, name)?;
        self.distributions.get_distribution(alloc, name.as_str())
    }

    /// Lends a histogram: its handle, and a new pass that has seen what the exporter has seen and has made no call. Answers
    /// `None` exactly where no histogram with the id is live.
    pub fn lend_histogram(
        &mut self,
        alloc: Global,
        id: SeriesId,
    ) -> Result<Option<Lent<facade::Histogram<PromHistogram>, SamplePass<(Fixed, u64)>>>, Memory>
        ensures lent { IfOk result (λ lent. LendsHistogram id lent self.old self.new) }
        ensures refused { OnErr result (self.new ≡ self.old) }
    {
        let Some(histogram) = self.series.get_histogram_mut(id) else {
            return Ok(None);
        };
        let (queue, pass) = histogram.lend(alloc)?;
        Ok(Some(Lent {
            handle: facade::Histogram::from_arc(queue),
            pass,
            id,
        }))
    }

    /// Takes back a histogram that this exporter lent: the exporter has then seen all that the pass had seen. Where the series
    /// isn't live the pass is dropped.
    pub fn give_back_histogram(
        &mut self,
        lent: Lent<facade::Histogram<PromHistogram>, SamplePass<(Fixed, u64)>>,
    )
        requires lent { LentHistogram self.old lent }
        ensures taken { (HasNoHistogram lent.id self.old × (self.new ≡ self.old))
            ⊎ ChangesHistogram lent.id (λ s t. t ≡ record s { series = with_one_back (view_of lent.pass) s.series }) self.old self.new }
    {
        let Lent {
            handle: _,
            pass,
            id,
        } = lent;
        if let Some(histogram) = self.series.get_histogram_mut(id) {
            histogram.take_back(pass);
        }
    }

    /// Drains all histograms. Where memory is refused, the samples that are not drained wait for the next call, in the same
    /// order.
    pub(crate) fn drain_histograms<R: Wait>(&mut self, rt: &R, alloc: Global) -> Result<(), Memory>
        ensures drained { OnOk result (DrainsEach DrainsWhole self.old self.new) }
        ensures refused { OnErr result (DrainsEach DrainsInPart self.old self.new) }
    {
        for place in 0..self.series.histogram_count() {
            self.series.histogram_at(place).drain(rt, alloc)?;
        }
        Ok(())
    }

    /// Makes the page step of the histograms, which were drained.
    pub(crate) fn step_histograms(&mut self, moment: u64)
        ensures counted { AreCounted self.old.settings.idle moment self.old.series.histograms
            self.new.series.histograms }
        ensures others { self.new ≡ record self.old
            { series = record self.old.series { histograms = self.new.series.histograms } } }
    {
        let recency = self.settings.recency_of(MetricKind::Histogram);
        let count = self.series.histogram_count();
        self.series.retain_histograms(
            move |_: SeriesId, cell: &mut HistogramCell| -> bool
                ensures { IsCounted (unwrap_or recency None) moment cell.entry.now result
                    cell.exit.now }
            { cell.stays(&recency, moment) },
        );
        if self.series.histogram_count() < count {
            self.histogram_rows.clear();
        }
    }
}
