//! The state of the exporter: its live series of each kind, in order of registration.

ghost use Rattle.std.specs.Prelude.{◌≡◌, ℕ, ◌+◌, ◌-◌, ◌^◌, ◌<◌, ◌≤◌, ◌⊎◌, [], set, IfOk, IfErr, OnErr, OnOk, None, length, unwrap_or};
ghost use Rattle.metrics_core.specs.declared.kinds.MetricKind.TheVariants.{Counter, Gauge};
ghost use Rattle.metrics_core.specs.Outside.{Rose, GrewBy, GrewByPrefix};
ghost use Rattle.prom_format.specs.LabelSets.{labels_of};
ghost use Rattle.series_cells.specs.Pass.{view_of};
ghost use Rattle.metric_descriptions.specs.Descriptions.{nothing_described};
ghost use Rattle.prom_exporter.specs.State.{register, live_series, key_given, number_given, with_series, number_of, page_step};
ghost use Rattle.prom_exporter.specs.Shared.{TakesBack};
ghost use Rattle.prom_exporter.specs.Builder.{with_globals, SpanIsTooLong};
ghost use Rattle.prom_exporter.specs.Stepped.{IsNoted, AreNoted, Steps, DrainsEach, DrainsInPart};
ghost use Rattle.prom_exporter.specs.Exporter.{Exporter, state_of, no_cells, AllHome, AddsCounter, AddsGauge, AreTimely, ChangesCounter, ChangesGauge, written_page, written_body};
ghost use Rattle.prom_exporter.specs.Lending.{LendsCounter, LendsGauge, LentCounter, LentGauge, HasNoCounter, HasNoGauge};

use crate::BuildError;
use crate::cells::{CounterCell, GaugeCell, new_counter, new_gauge};
use crate::lent::Lent;
use crate::rows::Rows;
use crate::sampled::HistogramCell;
use crate::settings::Settings;
use distributions::DistributionBuilder;
use hash_starts::HashStart;
use indexmap::IndexMap;
use metric_descriptions::Descriptions;
use metrics_core::{Key, Memory, MetricKind, SeriesId, Sink};
use metrics_facade as facade;
use metrics_registry::Registry;
use name_counts::NameCounts;
use series_cells::{CellPass, PromCounter, PromGauge};
use std::alloc::Global;
use std::marker::Model;
use std::sync::Wait;

/// The exporter: what it was built with, its series, what is said of metrics, and how often registrations were redirected. Each counter and each gauge is a cell that threads
/// share, which is made when the series is lent for the first time, and each histogram a queue; the exporter has the root pass of each,
/// lends passes of it and takes them back. It can't be let go: end it by `end`.
pub struct PrometheusState {
    pub(crate) globals: IndexMap<String, String, HashStart>,
    pub(crate) settings: Settings,
    pub(crate) distributions: DistributionBuilder,
    pub(crate) series: Registry<CounterCell, GaugeCell, HistogramCell>,
    pub(crate) counter_rows: Rows,
    pub(crate) gauge_rows: Rows,
    pub(crate) histogram_rows: Rows,
    pub(crate) descriptions: Descriptions,
    pub(crate) redirections: NameCounts,
}

impl Model for PrometheusState {
    ghost use Rattle.prom_format.specs.LabelSets.{labels_of};
    ghost use Rattle.prom_exporter.specs.Builder.{with_globals};
    ghost use Rattle.prom_exporter.specs.Exporter.{Exporter};

    ghost Value = { Exporter };

    ghost view = { λ s. record {
      settings = with_globals s.settings (labels_of s.globals.entries);
      series = s.series;
      said = s.descriptions;
      redirected = s.redirections.entries;
    } };

    ghost use Rattle.prom_exporter.specs.Kept.{IsKept};

    ghost invariant = { λ s. IsKept (with_globals s.settings (labels_of s.globals.entries)) s.distributions s.series s.counter_rows s.gauge_rows s.histogram_rows };
}

impl PrometheusState {
    /// An exporter with these global labels and settings, and no series. What it looks up by hashes, of keys and of names, it
    /// looks up from the start of those of the global labels.
    pub(crate) fn new(
        alloc: Global,
        globals: IndexMap<String, String, HashStart>,
        settings: Settings,
    ) -> Result<PrometheusState, Memory>
        requires span { SpanIsTooLong settings → ⊥ }
        ensures made { IfOk result (λ exporter.
            exporter ≡ record {
              settings = with_globals settings
                  (labels_of globals.entries);
              series = no_cells;
              said = nothing_described;
              redirected = [];
            }) }
    {
        let distributions = settings.distributions(alloc)?;
        let start = *globals.hasher();
        let series = Registry::starting_from(alloc, start)?;
        Ok(PrometheusState {
            globals,
            settings,
            distributions,
            series,
            counter_rows: Rows::new(alloc, start),
            gauge_rows: Rows::new(alloc, start),
            histogram_rows: Rows::new(alloc, start),
            descriptions: Descriptions::new(start),
            redirections: NameCounts::new(alloc, start),
        })
    }

    /// Makes room for so many more counters and gauges, so that registering them moves no series.
    pub fn reserve(&mut self, counters: usize, gauges: usize) -> Result<(), Memory>
        ensures same { self.new ≡ self.old }
    {
        self.series.reserve(counters, gauges)?;
        self.counter_rows.label_sets.reserve(counters)?;
        self.gauge_rows.label_sets.reserve(gauges)
    }

    /// How many series are live, of all kinds.
    pub fn count(&self) -> usize
        ensures { result ≡ length self.now.series.counters +
            (length self.now.series.gauges + length self.now.series.histograms) }
    {
        self.series.count()
    }

    /// Registers a counter. Where one with an equal key is live its id is given, no memory is taken, and nothing changes;
    /// otherwise a new one at 0 goes last, whose cell is made when it is first lent. Past 2^64 - 1 series none is made, and the id
    /// names none. Where a limit is set and as many counters of the same metric name are live, it is redirected: all this is done with
    /// the key of the metric name's overflow series, and counted.
    pub fn register_counter(&mut self, alloc: Global, key: &Key) -> Result<SeriesId, Memory>
        ensures registered { OnOk result (state_of self.new ≡ register Counter key.now
            (state_of self.old)) }
        ensures cells { OnOk result ((self.new.series ≡ self.old.series)
            ⊎ AddsCounter (key_given Counter key.now (state_of self.old)) self.old self.new) }
        ensures home { AllHome self.old → AllHome self.new }
        ensures settings { self.new.settings ≡ self.old.settings }
        ensures id { IfOk result (λ id.
            id ≡ record {
              kind = Counter;
              number = number_given Counter key.now
                  (state_of self.old);
            }) }
        ensures absent { OnErr result (live_series Counter key.now (state_of self.old) ≡ None) }
        ensures refused { OnErr result (self.new ≡ self.old) }
    {
        // The clause on ids needs how many were made.
        let _made = self.series.made();
        if let Some(id) = self.series.find_counter(key) {
            return Ok(id);
        }
        self.register_owned_counter(alloc, key.clone(alloc)?)
    }

    /// Registers a counter as `register_counter` does, under a key that the exporter then keeps, where it isn't redirected: it is not
    /// copied. A key that is live takes no memory.
    pub fn register_owned_counter(&mut self, alloc: Global, key: Key) -> Result<SeriesId, Memory>
        ensures registered { OnOk result (state_of self.new ≡ register Counter key
            (state_of self.old)) }
        ensures cells { OnOk result ((self.new.series ≡ self.old.series)
            ⊎ AddsCounter (key_given Counter key (state_of self.old)) self.old self.new) }
        ensures home { AllHome self.old → AllHome self.new }
        ensures settings { self.new.settings ≡ self.old.settings }
        ensures id { IfOk result (λ id.
            id ≡ record {
              kind = Counter;
              number = number_given Counter key
                  (state_of self.old);
            }) }
        ensures absent { OnErr result (live_series Counter key (state_of self.old) ≡ None) }
        ensures refused { OnErr result (self.new ≡ self.old) }
    {
        match self.redirected_to(alloc, MetricKind::Counter, &key)? {
            Some(name) => self.redirect(alloc, MetricKind::Counter, name),
            None => self.put_counter(alloc, key),
        }
    }

    /// Makes sure that a counter with a key is live: where none is, a new one goes last, or past 2^64 - 1 series none.
    pub(crate) fn put_counter(&mut self, alloc: Global, key: Key) -> Result<SeriesId, Memory>
        ensures registered { OnOk result (state_of self.new ≡ with_series Counter key
            (state_of self.old)) }
        ensures cells { OnOk result ((self.new.series ≡ self.old.series)
            ⊎ AddsCounter key self.old self.new) }
        ensures home { AllHome self.old → AllHome self.new }
        ensures settings { self.new.settings ≡ self.old.settings }
        ensures id { IfOk result (λ id.
            id ≡ record { kind = Counter; number = number_of Counter key (state_of self.old) }) }
        ensures absent { OnErr result (live_series Counter key (state_of self.old) ≡ None) }
        ensures refused { OnErr result (self.new ≡ self.old) }
    {
        let number = self.series.made();
        if number < u64::MAX {
            return self.series.register_counter(key, || Ok(new_counter()));
        }
        match self.series.find_counter(&key) {
            Some(id) => Ok(id),
            None => Ok(SeriesId {
                kind: MetricKind::Counter,
                number,
            }),
        }
    }

    /// Registers a gauge, as `register_counter` does a counter: a key that is live takes no memory.
    pub fn register_gauge(&mut self, alloc: Global, key: &Key) -> Result<SeriesId, Memory>
        ensures registered { OnOk result (state_of self.new ≡ register Gauge key.now
            (state_of self.old)) }
        ensures cells { OnOk result ((self.new.series ≡ self.old.series)
            ⊎ AddsGauge (key_given Gauge key.now (state_of self.old)) self.old self.new) }
        ensures home { AllHome self.old → AllHome self.new }
        ensures settings { self.new.settings ≡ self.old.settings }
        ensures id { IfOk result (λ id.
            id ≡ record {
              kind = Gauge;
              number = number_given Gauge key.now
                  (state_of self.old);
            }) }
        ensures absent { OnErr result (live_series Gauge key.now (state_of self.old) ≡ None) }
        ensures refused { OnErr result (self.new ≡ self.old) }
    {
        // The clause on ids needs how many were made.
        let _made = self.series.made();
        if let Some(id) = self.series.find_gauge(key) {
            return Ok(id);
        }
        self.register_owned_gauge(alloc, key.clone(alloc)?)
    }

    /// Registers a gauge as `register_gauge` does, under a key that the exporter then keeps, where it isn't redirected: it is not
    /// copied. A key that is live takes no memory.
    pub fn register_owned_gauge(&mut self, alloc: Global, key: Key) -> Result<SeriesId, Memory>
        ensures registered { OnOk result (state_of self.new ≡ register Gauge key
            (state_of self.old)) }
        ensures cells { OnOk result ((self.new.series ≡ self.old.series)
            ⊎ AddsGauge (key_given Gauge key (state_of self.old)) self.old self.new) }
        ensures home { AllHome self.old → AllHome self.new }
        ensures settings { self.new.settings ≡ self.old.settings }
        ensures id { IfOk result (λ id.
            id ≡ record {
              kind = Gauge;
              number = number_given Gauge key
                  (state_of self.old);
            }) }
        ensures absent { OnErr result (live_series Gauge key (state_of self.old) ≡ None) }
        ensures refused { OnErr result (self.new ≡ self.old) }
    {
        match self.redirected_to(alloc, MetricKind::Gauge, &key)? {
            Some(name) => self.redirect(alloc, MetricKind::Gauge, name),
            None => self.put_gauge(alloc, key),
        }
    }

    /// Makes sure that a gauge with a key is live: where none is, a new one goes last, or past 2^64 - 1 series none.
    pub(crate) fn put_gauge(&mut self, alloc: Global, key: Key) -> Result<SeriesId, Memory>
        ensures registered { OnOk result (state_of self.new ≡ with_series Gauge key
            (state_of self.old)) }
        ensures cells { OnOk result ((self.new.series ≡ self.old.series)
            ⊎ AddsGauge key self.old self.new) }
        ensures home { AllHome self.old → AllHome self.new }
        ensures settings { self.new.settings ≡ self.old.settings }
        ensures id { IfOk result (λ id.
            id ≡ record { kind = Gauge; number = number_of Gauge key (state_of self.old) }) }
        ensures absent { OnErr result (live_series Gauge key (state_of self.old) ≡ None) }
        ensures refused { OnErr result (self.new ≡ self.old) }
    {
        let number = self.series.made();
        if number < u64::MAX {
            return self.series.register_gauge(key, || Ok(new_gauge()));
        }
        match self.series.find_gauge(&key) {
            Some(id) => Ok(id),
            None => Ok(SeriesId {
                kind: MetricKind::Gauge,
                number,
            }),
        }
    }

    /// Lends a counter: its handle, and a new pass that has seen what the exporter has seen and has made no call. The counter's
    /// cell is made where it was never lent before. Answers `None` exactly where no counter with the id is live.
    pub fn lend_counter(
        &mut self,
        alloc: Global,
        id: SeriesId,
    ) -> Result<Option<Lent<facade::Counter<PromCounter>, CellPass>>, Memory>
        ensures lent { IfOk result (λ lent. LendsCounter id lent self.old self.new) }
        ensures refused { OnErr result (self.new ≡ self.old) }
    {
        let Some(counter) = self.series.get_counter_mut(id) else {
            return Ok(None);
        };
        let (cell, pass) = counter.lend(alloc)?;
        Ok(Some(Lent {
            handle: facade::Counter::from_arc(cell),
            pass,
            id,
        }))
    }

    /// Lends a gauge, as `lend_counter` does a counter.
    pub fn lend_gauge(
        &mut self,
        alloc: Global,
        id: SeriesId,
    ) -> Result<Option<Lent<facade::Gauge<PromGauge>, CellPass>>, Memory>
        ensures lent { IfOk result (λ lent. LendsGauge id lent self.old self.new) }
        ensures refused { OnErr result (self.new ≡ self.old) }
    {
        let Some(gauge) = self.series.get_gauge_mut(id) else {
            return Ok(None);
        };
        let (cell, pass) = gauge.lend(alloc)?;
        Ok(Some(Lent {
            handle: facade::Gauge::from_arc(cell),
            pass,
            id,
        }))
    }

    /// Takes back a counter that this exporter lent: the exporter has then seen all that the pass had seen. Where the series
    /// isn't live the pass is dropped.
    pub fn give_back_counter(&mut self, lent: Lent<facade::Counter<PromCounter>, CellPass>)
        requires lent { LentCounter self.old lent }
        ensures taken { (HasNoCounter lent.id self.old × (self.new ≡ self.old))
            ⊎ ChangesCounter lent.id (TakesBack (view_of lent.pass)) self.old self.new }
    {
        let Lent {
            handle: _,
            pass,
            id,
        } = lent;
        if let Some(counter) = self.series.get_counter_mut(id) {
            counter.take_back(pass);
        }
    }

    /// Takes back a gauge that this exporter lent, as `give_back_counter` does a counter.
    pub fn give_back_gauge(&mut self, lent: Lent<facade::Gauge<PromGauge>, CellPass>)
        requires lent { LentGauge self.old lent }
        ensures taken { (HasNoGauge lent.id self.old × (self.new ≡ self.old))
            ⊎ ChangesGauge lent.id (TakesBack (view_of lent.pass)) self.old self.new }
    {
        let Lent {
            handle: _,
            pass,
            id,
        } = lent;
        if let Some(gauge) = self.series.get_gauge_mut(id) {
            gauge.take_back(pass);
        }
    }

    /// Makes the page step at a moment, in nanoseconds: drains the histograms, publishes what is said of metrics, reads the other series, notes how many updates those
    /// have that may fall idle, and removes those that are idle. Where memory is refused histograms were drained in part, and nothing
    /// else was done.
    fn step<R: Wait>(&mut self, rt: &R, alloc: Global, moment: u64) -> Result<(), Memory>
        ensures steps { OnOk result (Steps moment self.old self.new) }
        ensures refused { OnErr result (DrainsEach DrainsInPart self.old self.new) }
    {
        self.run_upkeep(rt, alloc)?;
        self.step_counters(moment);
        self.step_gauges(moment);
        self.step_histograms(moment);
        Ok(())
    }

    /// Makes the page step of the counters.
    fn step_counters(&mut self, moment: u64)
        ensures noted { AreNoted self.old.settings.idle moment Counter self.old.series.counters
            self.new.series.counters }
        ensures others { self.new ≡ record self.old
            { series = record self.old.series { counters = self.new.series.counters } } }
    {
        let recency = self.settings.recency_of(MetricKind::Counter);
        let count = self.series.counter_count();
        self.series.retain_counters(
            move |_: SeriesId, cell: &mut CounterCell| -> bool
                ensures { IsNoted (unwrap_or recency None) moment Counter cell.entry.now result
                    cell.exit.now }
            { cell.stays(&recency, MetricKind::Counter, moment) },
        );
        if self.series.counter_count() < count {
            self.counter_rows.clear();
        }
    }

    /// Makes the page step of the gauges.
    fn step_gauges(&mut self, moment: u64)
        ensures noted { AreNoted self.old.settings.idle moment Gauge self.old.series.gauges
            self.new.series.gauges }
        ensures others { self.new ≡ record self.old
            { series = record self.old.series { gauges = self.new.series.gauges } } }
    {
        let recency = self.settings.recency_of(MetricKind::Gauge);
        let count = self.series.gauge_count();
        self.series.retain_gauges(
            move |_: SeriesId, cell: &mut GaugeCell| -> bool
                ensures { IsNoted (unwrap_or recency None) moment Gauge cell.entry.now result
                    cell.exit.now }
            { cell.stays(&recency, MetricKind::Gauge, moment) },
        );
        if self.series.gauge_count() < count {
            self.gauge_rows.clear();
        }
    }

    /// Makes the page step at a moment, in nanoseconds, and writes the page's body (Prometheus text exposition format, version
    /// 0.0.4). Descriptions that wait are published first. It shows each series that stays after a beginning of its cell's history that has all that the exporter had seen, and of
    /// a histogram the samples that are recorded; where no pass is out, after all calls ever made. Where an idle timeout is set, a
    /// series without an update for longer goes, and passes of it that are out reach nothing of the exporter any more.
    ///
    /// After `WriteFault` the step was made too, and a prefix of the body was written. After `Memory` so, or histograms were drained in
    /// part and nothing else happened, and no byte was written: no sample is lost, and none counts twice.
    pub fn render_to_write<R: Wait, K: Sink>(
        &mut self,
        rt: &R,
        alloc: Global,
        moment: u64,
        sink: &mut K,
    ) -> Result<(), BuildError>
        ensures steps { Steps moment self.old self.new
            ⊎ ((result ≡ Err BuildError.Memory) × DrainsEach DrainsInPart self.old self.new
            × (K.written sink.new ≡ K.written sink.old)) }
        ensures home { AllHome self.old → AllHome self.new }
        ensures stepped { AllHome self.old
            → (state_of self.new ≡ page_step self.old.settings.idle moment (state_of self.old))
            ⊎ ((result ≡ Err BuildError.Memory) × (state_of self.new ≡ state_of self.old)) }
        ensures timely { (t : ℕ) → AllHome self.old → AreTimely t self.old → AreTimely t self.new }

        // Of a summary the values of quantiles are those of what its rolling summary keeps, whatever the moments; all else hangs on no moment.
        ensures body { OnOk result (GrewBy (K.written sink.old) (K.written sink.new)
            (written_body moment self.new)) }
        ensures prefix { OnErr result (GrewByPrefix (K.written sink.old) (K.written sink.new)
            (written_body moment self.new)) }
        ensures page { OnOk result (AllHome self.old
            → GrewBy (K.written sink.old) (K.written sink.new) (written_page moment self.old)) }
        ensures page_prefix { OnErr result (AllHome self.old
            → GrewByPrefix (K.written sink.old) (K.written sink.new) (written_page moment self.old)) }

        ensures cause { IfErr result (λ error. (error ≡ BuildError.WriteFault)
            ⊎ (error ≡ BuildError.Memory))
            × (result ≡ Err BuildError.WriteFault → Rose (K.faults sink.old) (K.faults sink.new)) }
        ensures never_falls { K.faults sink.old ≤ K.faults sink.new }
    {
        self.step(rt, alloc, moment)?;
        self.write_body(alloc, moment, sink)
    }
}
