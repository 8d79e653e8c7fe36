//! The recorder.

ghost use Rattle.std.specs.Prelude.{◌≡◌, IfOk, OnErr};
ghost use Rattle.std.specs.Arc.{arc_value};
ghost use Rattle.metrics_core.specs.declared.kinds.MetricKind.TheVariants.{Counter as ACounter, Gauge as AGauge, Histogram as AHistogram};
ghost use Rattle.legal_history.specs.History.{lender};
ghost use Rattle.prom_exporter.specs.Lending.{LendsCounter, LendsGauge, LendsHistogram};
ghost use Rattle.shared_turns.specs.Passes.{view_of};
ghost use Rattle.shared_turns.specs.Turns.{opening};
ghost use Rattle.shared_recorder.specs.declared.entries.RecorderEntry.TheVariants.{Built};
ghost use Rattle.shared_recorder.specs.Recorder.{IsPass, Stays};
ghost use Rattle.prom_recorder.specs.Handing.{HandsOut, IsHandedCounter, IsHandedGauge, IsHandedHistogram, IsNewCounter, IsNewGauge, IsNewHistogram, IsItsOwn, RegistersInPart};

use crate::PrometheusHandle;
use crate::handing::{hand_out_counter, hand_out_gauge, hand_out_histogram};
use crate::lent::{LentCounter, LentGauge, LentHistogram};
use crate::shared::{Shared, end_shared, same_recorder};
use metrics_core::{Key, KeyName, Memory, Metadata, MetricKind, SharedString, Unit};
use metrics_facade::Recorder;
use prom_exporter::PrometheusState;
use shared_recorder::{SharedPass, SharedRecorder};
use std::alloc::Global;
use std::fmt;
use std::marker::Model;
use std::sync::{Arc, Wait};

/// A recorder over a Prometheus exporter, which any thread may use. It stands on a shared recorder, at which calls take turns and have one
/// legal history. Contracts see it as that shared recorder, so a handle or a recorder that is equal is of the same state.
///
/// Who holds a pass registers with it, by the calls that end in `_seen`, and describes and renders by `shared`; their clauses say what the
/// history has. The calls of `Recorder` take no pass: they make the same calls with a pass that stands behind a lock, and what becomes of the
/// history no clause of theirs says, since a value behind a lock is known by its type alone.
///
/// What it lends is a handle of a cell with a pass of that cell. Its holder drops it and never gives it back: the calls that were
/// made with it stay in the history of the cell, and pages show them. Past 2^64 - 1 series none is registered, and what is handed out then is a new
/// cell that no page shows; so it is where a page made with a pass removes the series as idle between its registration and its lending. Calls are
/// refused for want of memory alone; a registration that is refused may stand all the same.
///
/// Where the last to go of the recorder and its handles is given up by `end`, the state ends and its memory is given back. Where it
/// is let go instead, that memory is kept until the program ends.
#[derive(Drop)]
pub struct PrometheusRecorder {
    shared: Arc<Shared>,
}

impl Model for PrometheusRecorder {
    ghost use Rattle.std.specs.Arc.{arc_value};
    ghost use Rattle.shared_recorder.specs.declared.recorder.SharedRecorder.{SharedRecorder as RecorderOf};

    ghost Value = { RecorderOf };

    ghost view = { λ recorder. arc_value (arc_value recorder.shared).recorder };
}

impl PrometheusRecorder {
    /// A recorder over a state, with the root pass, of which one pass was lent.
    pub(crate) fn over(
        alloc: Global,
        state: PrometheusState,
    ) -> Result<(PrometheusRecorder, SharedPass), Memory>
        ensures { IfOk result (λ made. IsPass made.0 made.1
            × (view_of made.1 ≡ lender (opening (Built state)))) }
    {
        let (shared, root) = Shared::new(alloc, state)?;
        Ok((PrometheusRecorder { shared }, root))
    }

    /// A handle of the same state.
    pub fn handle(&self) -> Result<PrometheusHandle, Memory>
        ensures same { IfOk result (λ handle. handle ≡ self.now) }
    {
        Ok(PrometheusHandle::of(same_recorder(&self.shared)?))
    }

    /// The shared recorder, by which metrics are described and pages are rendered with a pass, and by which the root pass lends passes and
    /// takes them back.
    pub fn shared(&self) -> &SharedRecorder
        ensures { result.now ≡ self.now }
    {
        &self.shared.recorder
    }

    /// Registers a counter with a pass, and lends it. Where memory is refused the counter stays registered, or there is no entry.
    pub fn register_counter_seen<R: Wait>(
        &self,
        rt: &R,
        alloc: Global,
        pass: &mut SharedPass,
        key: &Key,
    ) -> Result<LentCounter, Memory>
        requires { IsPass self.now pass.old }
        ensures pass { Stays self.now pass.old pass.new }
        ensures handed { IfOk result (λ lent.
            HandsOut ACounter LendsCounter IsNewCounter key.now lent (view_of pass.old)
            (view_of pass.new)) }
        ensures own { IfOk result (λ lent.
            IsItsOwn ACounter LendsCounter key.now lent (view_of pass.old) (view_of pass.new)) }
        ensures lent { IfOk result IsHandedCounter }
        ensures refused { OnErr result (RegistersInPart ACounter key.now (view_of pass.old)
            (view_of pass.new)) }
    {
        hand_out_counter(rt, alloc, &self.shared.recorder, pass, key)
    }

    /// Registers a gauge with a pass, and lends it, as `register_counter_seen` does a counter.
    pub fn register_gauge_seen<R: Wait>(
        &self,
        rt: &R,
        alloc: Global,
        pass: &mut SharedPass,
        key: &Key,
    ) -> Result<LentGauge, Memory>
        requires { IsPass self.now pass.old }
        ensures pass { Stays self.now pass.old pass.new }
        ensures handed { IfOk result (λ lent.
            HandsOut AGauge LendsGauge IsNewGauge key.now lent (view_of pass.old)
            (view_of pass.new)) }
        ensures own { IfOk result (λ lent.
            IsItsOwn AGauge LendsGauge key.now lent (view_of pass.old) (view_of pass.new)) }
        ensures lent { IfOk result IsHandedGauge }
        ensures refused { OnErr result (RegistersInPart AGauge key.now (view_of pass.old)
            (view_of pass.new)) }
    {
        hand_out_gauge(rt, alloc, &self.shared.recorder, pass, key)
    }

    /// Registers a histogram with a pass, and lends it, as `register_counter_seen` does a counter.
    pub fn register_histogram_seen<R: Wait>(
        &self,
        rt: &R,
        alloc: Global,
        pass: &mut SharedPass,
        key: &Key,
    ) -> Result<LentHistogram, Memory>
        requires { IsPass self.now pass.old }
        ensures pass { Stays self.now pass.old pass.new }
        ensures handed { IfOk result (λ lent.
            HandsOut AHistogram LendsHistogram IsNewHistogram key.now lent (view_of pass.old)
            (view_of pass.new)) }
        ensures own { IfOk result (λ lent.
            IsItsOwn AHistogram LendsHistogram key.now lent (view_of pass.old) (view_of pass.new)) }
        ensures lent { IfOk result IsHandedHistogram }
        ensures refused { OnErr result (RegistersInPart AHistogram key.now (view_of pass.old)
            (view_of pass.new)) }
    {
        hand_out_histogram(rt, alloc, &self.shared.recorder, pass, key)
    }

    /// Gives the recorder up. Where it is the last that shares its state, the state ends.
    pub fn end<R: Wait>(self, rt: &R) {
        let PrometheusRecorder { shared } = self;
        end_shared(rt, shared);
    }
}

impl Recorder for PrometheusRecorder {
    type Counter = LentCounter;

    type Gauge = LentGauge;

    type Histogram = LentHistogram;

    ghost use Rattle.prom_recorder.specs.Handing.{IsHandedCounter, IsHandedGauge, IsHandedHistogram};

    ghost counter_of = { λ _ _ _ lent. IsHandedCounter lent };

    ghost gauge_of = { λ _ _ _ lent. IsHandedGauge lent };

    ghost histogram_of = { λ _ _ _ lent. IsHandedHistogram lent };

    fn describe_counter<R: Wait>(
        &self,
        rt: &R,
        alloc: Global,
        key: KeyName,
        unit: Option<Unit>,
        description: SharedString,
    ) -> Result<(), Memory> {
        let mut own = self.shared.lock(rt);
        own.describe(rt, alloc, MetricKind::Counter, key, unit, description)
    }

    fn describe_gauge<R: Wait>(
        &self,
        rt: &R,
        alloc: Global,
        key: KeyName,
        unit: Option<Unit>,
        description: SharedString,
    ) -> Result<(), Memory> {
        let mut own = self.shared.lock(rt);
        own.describe(rt, alloc, MetricKind::Gauge, key, unit, description)
    }

    fn describe_histogram<R: Wait>(
        &self,
        rt: &R,
        alloc: Global,
        key: KeyName,
        unit: Option<Unit>,
        description: SharedString,
    ) -> Result<(), Memory> {
        let mut own = self.shared.lock(rt);
        own.describe(rt, alloc, MetricKind::Histogram, key, unit, description)
    }

    fn register_counter<R: Wait>(
        &self,
        rt: &R,
        alloc: Global,
        key: &Key,
        _metadata: &Metadata<'_>,
    ) -> Result<LentCounter, Memory> {
        let mut own = self.shared.lock(rt);
        own.register_counter(rt, alloc, key)
    }

    fn register_gauge<R: Wait>(
        &self,
        rt: &R,
        alloc: Global,
        key: &Key,
        _metadata: &Metadata<'_>,
    ) -> Result<LentGauge, Memory> {
        let mut own = self.shared.lock(rt);
        own.register_gauge(rt, alloc, key)
    }

    fn register_histogram<R: Wait>(
        &self,
        rt: &R,
        alloc: Global,
        key: &Key,
        _metadata: &Metadata<'_>,
    ) -> Result<LentHistogram, Memory> {
        let mut own = self.shared.lock(rt);
        own.register_histogram(rt, alloc, key)
    }
}

impl fmt::Debug for PrometheusRecorder {
    fn fmt<W: fmt::Write>(&self, f: &mut fmt::Formatter<W>) -> fmt::Result {
        f.debug_struct("PrometheusRecorder").finish_non_exhaustive()
    }
}
