//! The state of the exporter: its series of each kind, in order of registration. None is ever removed.

ghost use Rattle.std.specs.Prelude.{◌≡◌, ◌⊎◌, ◌-◌, ◌^◌, ◌<◌, IfOk, None, OnErr, OnOk};
ghost use Rattle.metrics_core.specs.declared.kinds.MetricKind.TheVariants.{Counter, Gauge, Histogram};
ghost use Rattle.metrics_registry.specs.Live.{RegistersGauge, id_of_key};
ghost use Rattle.flushed_cells.specs.Passes as flushed;
ghost use Rattle.sample_queue.specs.Passes as queued;
ghost use Rattle.dsd_exporter.specs.State.{register, number_found, number_given};
ghost use Rattle.dsd_exporter.specs.Exporter.{Exporter, AllHome, AddsCounter, AddsGauge, AddsHistogram, no_cells, series_seen, settings_of, unused};
ghost use Rattle.dsd_exporter.specs.Lending.{LendsCounter, LendsGauge, LendsHistogram, LentCounter, LentGauge, LentHistogram, HasNoCounter, HasNoGauge, HasNoHistogram, ChangesCounter, ChangesGauge, ChangesHistogram, with_one_back, queue_back};

use crate::configuration::StateConfiguration;
use crate::gauge_texts::GaugeTexts;
use crate::kept_cells::{KeptCell, new_counter, new_gauge};
use crate::lent::Lent;
use crate::queued::QueuedSamples;
use flushed_cells::{CounterPass, DsdCounter, DsdGauge, GaugePass};
use hash_starts::HashStart;
use metrics_core::{Fixed, Key, Memory, MetricKind, SeriesId};
use metrics_registry::Registry;
use sample_queue::{DsdHistogram, SamplePass};
use std::alloc::Global;
use std::marker::Model;
use std::sync::Arc;

/// The exporter: what it was built with, and its series. Each has a cell that threads share, of which the exporter has the root
/// pass; it lends passes of it and takes them back.
#[derive(Drop)]
pub struct State {
    pub(crate) configuration: StateConfiguration,
    pub(crate) series: Registry<KeptCell<DsdCounter>, KeptCell<DsdGauge>, QueuedSamples>,
    /// What lines want of the gauges, in order.
    pub(crate) gauge_keys: GaugeTexts,
}

impl Model for State {
    ghost use Rattle.std.specs.Prelude.{◌≡◌};
    ghost use Rattle.dsd_exporter.specs.Exporter.{Exporter, keys_of, settings_of};

    ghost Value = { Exporter };

    ghost view = { λ s. record { settings = settings_of s.configuration; series = s.series } };

    ghost invariant = { λ s. s.gauge_keys ≡ keys_of s.series.gauges };
}

impl State {
    /// An exporter without series. Keys are looked up by hashes from the fixed start. It takes no memory.
    pub fn new(alloc: Global, config: StateConfiguration) -> Result<State, Memory>
        ensures { IfOk result (λ made.
            made ≡ record { settings = settings_of config; series = no_cells }) }
    {
        State::starting_from(alloc, HashStart::fixed(), config)
    }

    /// An exporter without series. Keys are looked up by hashes from a start, which should be drawn where strangers choose them.
    /// It takes no memory.
    pub fn starting_from(
        alloc: Global,
        start: HashStart,
        config: StateConfiguration,
    ) -> Result<State, Memory>
        ensures { IfOk result (λ made.
            made ≡ record { settings = settings_of config; series = no_cells }) }
    {
        Ok(State {
            configuration: config,
            series: Registry::starting_from(alloc, start)?,
            gauge_keys: GaugeTexts::new(alloc),
        })
    }

    /// Whether the exporter counts its own work.
    pub fn telemetry_enabled(&self) -> bool
        ensures { result ≡ self.now.settings.telemetry }
    {
        self.configuration.telemetry
    }

    /// Makes room for so many more counters and gauges, so that registering them moves no series.
    pub fn reserve(&mut self, counters: usize, gauges: usize) -> Result<(), Memory>
        ensures same { self.new ≡ self.old }
    {
        self.series.reserve(counters, gauges)?;
        self.gauge_keys.reserve(gauges)
    }

    /// Registers a counter. Where there is one with an equal key its id is given, no memory is taken, and nothing changes;
    /// otherwise a new one at 0 goes last. Past 2^64 - 1 series none is made, and the id names none.
    pub fn register_counter(&mut self, alloc: Global, key: &Key) -> Result<SeriesId, Memory>
        ensures registered { OnOk result (series_seen self.new.series ≡ register Counter key.now
            (series_seen self.old.series)) }
        ensures cells { OnOk result ((self.new ≡ self.old) ⊎ AddsCounter key.now self.old self.new) }
        ensures home { AllHome self.old → AllHome self.new }
        ensures id { IfOk result (λ id.
            id ≡ record { kind = Counter; number = number_given Counter key.now self.old.series }) }
        ensures absent { OnErr result (number_found Counter key.now self.old.series ≡ None) }
        ensures refused { OnErr result (self.new ≡ self.old) }
    {
        // The clause on ids needs how many were made.
        let _made = self.series.made();
        if let Some(id) = self.series.find_counter(key) {
            return Ok(id);
        }
        self.register_owned_counter(alloc, key.clone(alloc)?)
    }

    /// Registers a counter as `register_counter` does, under a key that the exporter then keeps: it is not copied. A key that is
    /// there takes no memory.
    pub fn register_owned_counter(&mut self, alloc: Global, key: Key) -> Result<SeriesId, Memory>
        ensures registered { OnOk result (series_seen self.new.series ≡ register Counter key
            (series_seen self.old.series)) }
        ensures cells { OnOk result ((self.new ≡ self.old) ⊎ AddsCounter key self.old self.new) }
        ensures home { AllHome self.old → AllHome self.new }
        ensures id { IfOk result (λ id.
            id ≡ record { kind = Counter; number = number_given Counter key self.old.series }) }
        ensures absent { OnErr result (number_found Counter key self.old.series ≡ None) }
        ensures refused { OnErr result (self.new ≡ self.old) }
    {
        let number = self.series.made();
        if number < u64::MAX {
            return self.series.register_counter(key, || Ok(new_counter()));
        }
        match self.series.find_counter(&key) {
            Some(id) => Ok(id),
            None => Ok(SeriesId {
                kind: MetricKind::Counter,
                number,
            }),
        }
    }

    /// Registers a gauge, as `register_counter` does a counter: a key that is there takes no memory.
    pub fn register_gauge(&mut self, alloc: Global, key: &Key) -> Result<SeriesId, Memory>
        ensures registered { OnOk result (series_seen self.new.series ≡ register Gauge key.now
            (series_seen self.old.series)) }
        ensures cells { OnOk result ((self.new ≡ self.old) ⊎ AddsGauge key.now self.old self.new) }
        ensures home { AllHome self.old → AllHome self.new }
        ensures id { IfOk result (λ id.
            id ≡ record { kind = Gauge; number = number_given Gauge key.now self.old.series }) }
        ensures absent { OnErr result (number_found Gauge key.now self.old.series ≡ None) }
        ensures refused { OnErr result (self.new ≡ self.old) }
    {
        // The clause on ids needs how many were made.
        let _made = self.series.made();
        if let Some(id) = self.series.find_gauge(key) {
            return Ok(id);
        }
        self.register_owned_gauge(alloc, key.clone(alloc)?)
    }

    /// Registers a gauge as `register_gauge` does, under a key that the exporter then keeps: it is not copied. A key that is
    /// there takes no memory.
    pub fn register_owned_gauge(&mut self, alloc: Global, key: Key) -> Result<SeriesId, Memory>
        ensures registered { OnOk result (series_seen self.new.series ≡ register Gauge key
            (series_seen self.old.series)) }
        ensures cells { OnOk result ((self.new ≡ self.old) ⊎ AddsGauge key self.old self.new) }
        ensures home { AllHome self.old → AllHome self.new }
        ensures id { IfOk result (λ id.
            id ≡ record { kind = Gauge; number = number_given Gauge key self.old.series }) }
        ensures absent { OnErr result (number_found Gauge key self.old.series ≡ None) }
        ensures refused { OnErr result (self.new ≡ self.old) }
    {
        let number = self.series.made();
        if number < u64::MAX {
            return self.add_gauge(key);
        }
        match self.series.find_gauge(&key) {
            Some(id) => Ok(id),
            None => Ok(SeriesId {
                kind: MetricKind::Gauge,
                number,
            }),
        }
    }

    /// Registers a gauge where a number is left. The key of a new one is kept for its lines; where memory for that is refused
    /// the gauge is taken back.
    fn add_gauge(&mut self, key: Key) -> Result<SeriesId, Memory>
        requires { self.old.series.made < 2 ^ 64 - 1 }
        ensures registered { IfOk result (λ id.
            RegistersGauge (λ cell. cell ≡ unused cell.fixed) key id self.old.series
            self.new.series) }
        ensures others { self.new ≡ record self.old { series = self.new.series } }
        ensures absent { OnErr result (id_of_key key self.old.series.gauges ≡ None) }
        ensures refused { OnErr result (self.new ≡ self.old) }
    {
        // That a gauge can be taken back needs how many were made.
        let _made = self.series.made();
        let count = self.series.gauge_count();
        let id = self.series.register_gauge(key, || Ok(new_gauge()))?;
        let gauges = self.series.gauges();
        let Some(key) = gauges.key(count) else {
            return Ok(id);
        };
        match self.gauge_keys.push(key) {
            Ok(()) => Ok(id),
            Err(refused) => {
                self.series.take_back_gauge();
                Err(refused)
            }
        }
    }

    /// Registers a histogram, as `register_counter` does a counter: a key that is there takes no memory.
    pub fn register_histogram(&mut self, alloc: Global, key: &Key) -> Result<SeriesId, Memory>
        ensures registered { OnOk result (series_seen self.new.series ≡ register Histogram key.now
            (series_seen self.old.series)) }
        ensures cells { OnOk result ((self.new ≡ self.old)
            ⊎ AddsHistogram key.now self.old self.new) }
        ensures home { AllHome self.old → AllHome self.new }
        ensures id { IfOk result (λ id.
            id ≡ record {
              kind = Histogram;
              number = number_given Histogram key.now self.old.series;
            }) }
        ensures absent { OnErr result (number_found Histogram key.now self.old.series ≡ None) }
        ensures refused { OnErr result (self.new ≡ self.old) }
    {
        // The clause on ids needs how many were made.
        let _made = self.series.made();
        if let Some(id) = self.series.find_histogram(key) {
            return Ok(id);
        }
        self.register_owned_histogram(alloc, key.clone(alloc)?)
    }

    /// Registers a histogram as `register_histogram` does, under a key that the exporter then keeps: it is not copied. A key that
    /// is there takes no memory.
    pub fn register_owned_histogram(&mut self, alloc: Global, key: Key) -> Result<SeriesId, Memory>
        ensures registered { OnOk result (series_seen self.new.series ≡ register Histogram key
            (series_seen self.old.series)) }
        ensures cells { OnOk result ((self.new ≡ self.old) ⊎ AddsHistogram key self.old self.new) }
        ensures home { AllHome self.old → AllHome self.new }
        ensures id { IfOk result (λ id.
            id ≡ record { kind = Histogram; number = number_given Histogram key self.old.series }) }
        ensures absent { OnErr result (number_found Histogram key self.old.series ≡ None) }
        ensures refused { OnErr result (self.new ≡ self.old) }
    {
        let number = self.series.made();
        if number < u64::MAX {
            return self
                .series
                .register_histogram(key, || QueuedSamples::new(alloc));
        }
        match self.series.find_histogram(&key) {
            Some(id) => Ok(id),
            None => Ok(SeriesId {
                kind: MetricKind::Histogram,
                number,
            }),
        }
    }

    /// Lends a counter: its cell, which the first lend makes, and a new pass that has seen what the exporter has seen and has
    /// made no call. Answers `None` exactly where no counter has the id.
    pub fn lend_counter(
        &mut self,
        alloc: Global,
        id: SeriesId,
    ) -> Result<Option<Lent<Arc<DsdCounter>, CounterPass>>, Memory>
        ensures lent { IfOk result (λ lent. LendsCounter id lent self.old self.new) }
        ensures refused { OnErr result (self.new ≡ self.old) }
    {
        let Some(counter) = self.series.get_counter_mut(id) else {
            return Ok(None);
        };
        let (handle, pass) = counter.lend_pass(alloc)?;
        Ok(Some(Lent { handle, pass, id }))
    }

    /// Takes back a counter that this exporter lent: the exporter has then seen all that the pass had seen. Where no counter has
    /// the id the pass is dropped.
    pub fn give_back_counter(&mut self, lent: Lent<Arc<DsdCounter>, CounterPass>)
        requires lent { LentCounter self.old lent }
        ensures taken { (HasNoCounter lent.id self.old × (self.new ≡ self.old))
            ⊎ ChangesCounter lent.id
            (λ s t. t ≡ with_one_back (flushed.view_of lent.pass) s) self.old self.new }
    {
        let Lent {
            handle: _,
            pass,
            id,
        } = lent;
        if let Some(counter) = self.series.get_counter_mut(id) {
            counter.take_pass(pass);
        }
    }

    /// Lends a gauge, as `lend_counter` does a counter.
    pub fn lend_gauge(
        &mut self,
        alloc: Global,
        id: SeriesId,
    ) -> Result<Option<Lent<Arc<DsdGauge>, GaugePass>>, Memory>
        ensures lent { IfOk result (λ lent. LendsGauge id lent self.old self.new) }
        ensures refused { OnErr result (self.new ≡ self.old) }
    {
        let Some(gauge) = self.series.get_gauge_mut(id) else {
            return Ok(None);
        };
        let (handle, pass) = gauge.lend_pass(alloc)?;
        Ok(Some(Lent { handle, pass, id }))
    }

    /// Takes back a gauge that this exporter lent, as `give_back_counter` does a counter.
    pub fn give_back_gauge(&mut self, lent: Lent<Arc<DsdGauge>, GaugePass>)
        requires lent { LentGauge self.old lent }
        ensures taken { (HasNoGauge lent.id self.old × (self.new ≡ self.old))
            ⊎ ChangesGauge lent.id
            (λ s t. t ≡ with_one_back (flushed.view_of lent.pass) s) self.old self.new }
    {
        let Lent {
            handle: _,
            pass,
            id,
        } = lent;
        if let Some(gauge) = self.series.get_gauge_mut(id) {
            gauge.take_pass(pass);
        }
    }

    /// Lends a histogram, as `lend_counter` does a counter.
    pub fn lend_histogram(
        &mut self,
        alloc: Global,
        id: SeriesId,
    ) -> Result<Option<Lent<Arc<DsdHistogram>, SamplePass<Fixed>>>, Memory>
        ensures lent { IfOk result (λ lent. LendsHistogram id lent self.old self.new) }
        ensures refused { OnErr result (self.new ≡ self.old) }
    {
        let Some(histogram) = self.series.get_histogram_mut(id) else {
            return Ok(None);
        };
        let (handle, pass) = histogram.lend(alloc)?;
        Ok(Some(Lent { handle, pass, id }))
    }

    /// Takes back a histogram that this exporter lent, as `give_back_counter` does a counter.
    pub fn give_back_histogram(&mut self, lent: Lent<Arc<DsdHistogram>, SamplePass<Fixed>>)
        requires lent { LentHistogram self.old lent }
        ensures taken { (HasNoHistogram lent.id self.old × (self.new ≡ self.old))
            ⊎ ChangesHistogram lent.id
            (λ s t. t ≡ queue_back (queued.view_of lent.pass) s) self.old self.new }
    {
        let Lent {
            handle: _,
            pass,
            id,
        } = lent;
        if let Some(histogram) = self.series.get_histogram_mut(id) {
            histogram.take_back(pass);
        }
    }
}
