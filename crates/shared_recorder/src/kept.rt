//! The state as it is shared, and the calls that are made on it while a pass has its turn.
ghost use Rattle.std.specs.Prelude.{◌≡◌, ◌≤◌, ◌⊎◌, Err, IfOk, IfErr, OnErr, OnOk};
ghost use Rattle.metrics_core.specs.Texts.{cow_text};
ghost use Rattle.metrics_core.specs.Outside.{Rose, GrewBy, GrewByPrefix};
ghost use Rattle.metrics_registry.specs.Live.{IsNumbered};
ghost use Rattle.prom_exporter.specs.State.{register, number_given, describe};
ghost use Rattle.prom_exporter.specs.Lending.{LendsCounter, LendsGauge, LendsHistogram};
ghost use Rattle.prom_exporter.specs.Stepped.{DrainsEach, DrainsInPart, KeepsUp};
ghost use Rattle.prom_exporter.specs.Exporter.{state_of, written_body};
ghost use Rattle.shared_recorder.specs.Pages.{MakesPage, MakesPart};

use metrics_core::{Fixed, Key, KeyName, Memory, MetricKind, SeriesId, SharedString, Sink, Unit};
use metrics_facade as facade;
use prom_exporter::{BuildError, Lent, PrometheusState};
use sample_queue::{PromHistogram, SamplePass};
use series_cells::{CellPass, PromCounter, PromGauge};
use std::alloc::Global;
use std::marker::Model;
use std::mem::ManuallyDrop;
use std::sync::Wait;

/// A state that can be let go: it is kept in memory then until the program ends. Contracts see the state.
#[derive(Drop)]
pub struct KeptState {
    state: ManuallyDrop<PrometheusState>,
}

impl Model for KeptState {
    ghost use Rattle.std.specs.Mem.{manually_drop_value};
    ghost use Rattle.prom_exporter.specs.Exporter.{Exporter};

    ghost Value = { Exporter };

    ghost view = { λ kept. manually_drop_value kept.state };
}

impl KeptState {
    /// Keeps a state.
    pub(crate) fn of(state: PrometheusState) -> KeptState
        ensures { result ≡ state }
    {
        // It is `end` that takes the state out again.
        let state = unsafe { ManuallyDrop::new_unchecked(state) };
        KeptState { state }
    }

    /// Ends the state.
    pub(crate) fn end<R: Wait>(self, rt: &R) {
        let Self { state } = self;
        ManuallyDrop::into_inner(state).end(rt);
    }

    /// Registers a series of a kind.
    pub(crate) fn register(
        &mut self,
        alloc: Global,
        kind: MetricKind,
        key: &Key,
    ) -> Result<SeriesId, Memory>
        ensures registered { OnOk result (state_of self.new ≡ register kind key.now
            (state_of self.old)) }
        ensures settings { self.new.settings ≡ self.old.settings }
        ensures id { IfOk result (λ id.
            id ≡ record { kind = kind; number = number_given kind key.now (state_of self.old) }) }
        ensures refused { OnErr result (self.new ≡ self.old) }
    {
        match kind {
            MetricKind::Counter => self.state.register_counter(alloc, key),
            MetricKind::Gauge => self.state.register_gauge(alloc, key),
            MetricKind::Histogram => self.state.register_histogram(alloc, key),
        }
    }

    /// Describes a metric of a kind.
    pub(crate) fn describe<R: Wait>(
        &mut self,
        rt: &R,
        alloc: Global,
        kind: MetricKind,
        name: KeyName,
        unit: Option<Unit>,
        description: SharedString,
    ) -> Result<(), Memory>
        ensures described { OnOk result (state_of self.new ≡ describe name unit
            (cow_text description.entry) (state_of self.old)) }
        ensures others { self.new ≡ record self.old { said = self.new.said } }
        ensures refused { OnErr result (self.new ≡ self.old) }
    {
        match kind {
            MetricKind::Counter => self
                .state
                .describe_counter(rt, alloc, name, unit, description),
            MetricKind::Gauge => self
                .state
                .describe_gauge(rt, alloc, name, unit, description),
            MetricKind::Histogram => self
                .state
                .describe_histogram(rt, alloc, name, unit, description),
        }
    }

    /// Drains all histograms and publishes what is said, and then makes the page step and writes the page. Where the first is refused
    /// nothing is published, and the answer is `Err`; how the second ended is in the `Ok`.
    pub(crate) fn page<R: Wait, K: Sink>(
        &mut self,
        rt: &R,
        alloc: Global,
        moment: u64,
        sink: &mut K,
    ) -> Result<Result<(), BuildError>, Memory>
        ensures numbered { IsNumbered self.old.series }
        ensures refused { OnErr result (DrainsEach DrainsInPart self.old self.new
            × (K.written sink.new ≡ K.written sink.old)) }
        ensures part { OnOk result (MakesPart moment self.old self.new) }
        ensures page { IfOk result (λ page. OnOk page (MakesPage moment self.old self.new)) }
        ensures body { IfOk result (λ page.
            OnOk page (GrewBy (K.written sink.old) (K.written sink.new)
            (written_body moment self.new))) }
        ensures prefix { IfOk result (λ page.
            OnErr page (GrewByPrefix (K.written sink.old) (K.written sink.new)
            (written_body moment self.new))) }
        ensures errors { IfOk result (λ page.
            IfErr page (λ error. (error ≡ BuildError.WriteFault) ⊎ (error ≡ BuildError.Memory))) }
        ensures cause { IfOk result (λ page. page ≡ Err BuildError.WriteFault
            → Rose (K.faults sink.old) (K.faults sink.new)) }
        ensures never_falls { K.faults sink.old ≤ K.faults sink.new }
    {
        // The clause on numbers is of this call.
        let _count = self.state.counter_count();
        self.state.run_upkeep(rt, alloc)?;
        Ok(self.state.render_to_write(rt, alloc, moment, sink))
    }

    /// Drains all histograms and publishes what is said. Where memory is refused nothing is published.
    pub(crate) fn keep_up<R: Wait>(&mut self, rt: &R, alloc: Global) -> Result<(), Memory>
        ensures kept { OnOk result (KeepsUp self.old self.new) }
        ensures refused { OnErr result (DrainsEach DrainsInPart self.old self.new) }
    {
        self.state.run_upkeep(rt, alloc)
    }

    /// Lends a counter.
    pub(crate) fn lend_counter(
        &mut self,
        alloc: Global,
        id: SeriesId,
    ) -> Result<Option<Lent<facade::Counter<PromCounter>, CellPass>>, Memory>
        ensures numbered { IsNumbered self.old.series }
        ensures lent { IfOk result (λ lent. LendsCounter id lent self.old self.new) }
        ensures refused { OnErr result (self.new ≡ self.old) }
    {
        // The clause on numbers is of this call.
        let _count = self.state.counter_count();
        self.state.lend_counter(alloc, id)
    }

    /// Lends a gauge.
    pub(crate) fn lend_gauge(
        &mut self,
        alloc: Global,
        id: SeriesId,
    ) -> Result<Option<Lent<facade::Gauge<PromGauge>, CellPass>>, Memory>
        ensures numbered { IsNumbered self.old.series }
        ensures lent { IfOk result (λ lent. LendsGauge id lent self.old self.new) }
        ensures refused { OnErr result (self.new ≡ self.old) }
    {
        // The clause on numbers is of this call.
        let _count = self.state.counter_count();
        self.state.lend_gauge(alloc, id)
    }

    /// Lends a histogram.
    pub(crate) fn lend_histogram(
        &mut self,
        alloc: Global,
        id: SeriesId,
    ) -> Result<Option<Lent<facade::Histogram<PromHistogram>, SamplePass<(Fixed, u64)>>>, Memory>
        ensures numbered { IsNumbered self.old.series }
        ensures lent { IfOk result (λ lent. LendsHistogram id lent self.old self.new) }
        ensures refused { OnErr result (self.new ≡ self.old) }
    {
        // The clause on numbers is of this call.
        let _count = self.state.counter_count();
        self.state.lend_histogram(alloc, id)
    }
}
