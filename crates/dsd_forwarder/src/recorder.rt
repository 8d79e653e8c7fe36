//! The recorder of a DogStatsD exporter, which threads share.

ghost use Rattle.std.specs.Prelude.{◌≡◌, IfOk, OnErr};
ghost use Rattle.std.specs.Arc.{arc_value};
ghost use Rattle.metrics_core.specs.declared.kinds.MetricKind.TheVariants as kinds;
ghost use Rattle.shared_turns.specs.Passes.{view_of};
ghost use Rattle.shared_flushes.specs.Passes.{IsPass};
ghost use Rattle.dsd_exporter.specs.Lending.{LendsCounter, LendsGauge, LendsHistogram};
ghost use Rattle.dsd_forwarder.specs.Registering.{HandsOut, MayRegister, IsHandedCounter, IsHandedGauge, IsHandedHistogram, IsLoneCounter, IsLoneGauge, IsLoneHistogram};

use crate::held_pass::HeldPass;
use crate::registering::{register_counter, register_gauge, register_histogram};
use dsd_exporter::Lent;
use flushed_cells::{CounterPass, DsdCounter, DsdGauge, GaugePass};
use metrics_core::{Fixed, Key, KeyName, Memory, Metadata, SharedString, Unit};
use metrics_facade::Recorder;
use sample_queue::{DsdHistogram, SamplePass};
use shared_flushes::{SharedState, StatePass};
use std::alloc::Global;
use std::sync::{Arc, Mutex, Wait};

/// Registers series in an exporter's state, which it shares with a forwarder, and hands out what the state lends of them. What it
/// hands out is dropped by its holder, and never given back. It ignores descriptions.
///
/// Who has a pass, which the forwarder lends, registers by `register_counter_seen` and its kin: the registration is then an entry of
/// that pass, behind all that it had seen. The calls of `Recorder` name no pass: they take that of the recorder, which stands behind
/// a lock.
#[derive(Drop)]
pub struct DogStatsDRecorder {
    state: Arc<SharedState>,
    own: Mutex<HeldPass>,
}

impl DogStatsDRecorder {
    /// The recorder of this state, with a pass for the calls that name none.
    pub(crate) fn of(own: HeldPass) -> Result<DogStatsDRecorder, Memory>
        ensures { IfOk result (λ made. arc_value made.state ≡ arc_value own.state) }
    {
        Ok(DogStatsDRecorder {
            state: Arc::try_clone(&own.state)?,
            own: Mutex::new(own),
        })
    }

    /// Registers a counter, behind all that the pass had seen, and hands out what the state lends of it. The pass is one that the
    /// recorder's forwarder lent. Where lending is refused the series stays registered.
    pub fn register_counter_seen<R: Wait>(
        &self,
        rt: &R,
        alloc: Global,
        pass: &mut StatePass,
        key: &Key,
    ) -> Result<Lent<Arc<DsdCounter>, CounterPass>, Memory>
        requires { IsPass (arc_value self.now.state) pass.old }
        ensures pass { IsPass (arc_value self.now.state) pass.new }
        ensures handed { IfOk result IsHandedCounter }
        ensures given { IfOk result (λ lent.
            HandsOut kinds.Counter LendsCounter IsLoneCounter key.now lent (view_of pass.old)
            (view_of pass.new)) }
        ensures refused { OnErr result (MayRegister kinds.Counter key.now (view_of pass.old)
            (view_of pass.new)) }
        ensures number { (view_of pass.new).number ≡ (view_of pass.old).number }
    {
        register_counter(rt, alloc, &self.state, pass, key)
    }

    /// Registers a gauge, as `register_counter_seen` does a counter.
    pub fn register_gauge_seen<R: Wait>(
        &self,
        rt: &R,
        alloc: Global,
        pass: &mut StatePass,
        key: &Key,
    ) -> Result<Lent<Arc<DsdGauge>, GaugePass>, Memory>
        requires { IsPass (arc_value self.now.state) pass.old }
        ensures pass { IsPass (arc_value self.now.state) pass.new }
        ensures handed { IfOk result IsHandedGauge }
        ensures given { IfOk result (λ lent.
            HandsOut kinds.Gauge LendsGauge IsLoneGauge key.now lent (view_of pass.old)
            (view_of pass.new)) }
        ensures refused { OnErr result (MayRegister kinds.Gauge key.now (view_of pass.old)
            (view_of pass.new)) }
        ensures number { (view_of pass.new).number ≡ (view_of pass.old).number }
    {
        register_gauge(rt, alloc, &self.state, pass, key)
    }

    /// Registers a histogram, as `register_counter_seen` does a counter.
    pub fn register_histogram_seen<R: Wait>(
        &self,
        rt: &R,
        alloc: Global,
        pass: &mut StatePass,
        key: &Key,
    ) -> Result<Lent<Arc<DsdHistogram>, SamplePass<Fixed>>, Memory>
        requires { IsPass (arc_value self.now.state) pass.old }
        ensures pass { IsPass (arc_value self.now.state) pass.new }
        ensures handed { IfOk result IsHandedHistogram }
        ensures given { IfOk result (λ lent.
            HandsOut kinds.Histogram LendsHistogram IsLoneHistogram key.now lent (view_of pass.old)
            (view_of pass.new)) }
        ensures refused { OnErr result (MayRegister kinds.Histogram key.now (view_of pass.old)
            (view_of pass.new)) }
        ensures number { (view_of pass.new).number ≡ (view_of pass.old).number }
    {
        register_histogram(rt, alloc, &self.state, pass, key)
    }
}

impl Recorder for DogStatsDRecorder {
    ghost use Rattle.std.specs.Prelude.{◌≡◌, Ok};

    type Counter = Lent<Arc<DsdCounter>, CounterPass>;

    type Gauge = Lent<Arc<DsdGauge>, GaugePass>;

    type Histogram = Lent<Arc<DsdHistogram>, SamplePass<Fixed>>;

    // Which series it is of the kind can't be said: nothing is known of the pass behind the lock but its type.
    ghost counter_of = { λ _ _ _ lent. IsHandedCounter lent };

    ghost gauge_of = { λ _ _ _ lent. IsHandedGauge lent };

    ghost histogram_of = { λ _ _ _ lent. IsHandedHistogram lent };

    ghost describes = { λ _ _ _ _ _ answer. answer ≡ Ok tt };

    /// Does nothing: lines carry no descriptions.
    fn describe_counter<R: Wait>(
        &self,
        _rt: &R,
        _alloc: Global,
        _key: KeyName,
        _unit: Option<Unit>,
        _description: SharedString,
    ) -> Result<(), Memory> {
        Ok(())
    }

    /// Does nothing: lines carry no descriptions.
    fn describe_gauge<R: Wait>(
        &self,
        _rt: &R,
        _alloc: Global,
        _key: KeyName,
        _unit: Option<Unit>,
        _description: SharedString,
    ) -> Result<(), Memory> {
        Ok(())
    }

    /// Does nothing: lines carry no descriptions.
    fn describe_histogram<R: Wait>(
        &self,
        _rt: &R,
        _alloc: Global,
        _key: KeyName,
        _unit: Option<Unit>,
        _description: SharedString,
    ) -> Result<(), Memory> {
        Ok(())
    }

    fn register_counter<R: Wait>(
        &self,
        rt: &R,
        alloc: Global,
        key: &Key,
        _metadata: &Metadata<'_>,
    ) -> Result<Lent<Arc<DsdCounter>, CounterPass>, Memory> {
        self.own.lock(rt).register_counter(rt, alloc, key)
    }

    fn register_gauge<R: Wait>(
        &self,
        rt: &R,
        alloc: Global,
        key: &Key,
        _metadata: &Metadata<'_>,
    ) -> Result<Lent<Arc<DsdGauge>, GaugePass>, Memory> {
        self.own.lock(rt).register_gauge(rt, alloc, key)
    }

    fn register_histogram<R: Wait>(
        &self,
        rt: &R,
        alloc: Global,
        key: &Key,
        _metadata: &Metadata<'_>,
    ) -> Result<Lent<Arc<DsdHistogram>, SamplePass<Fixed>>, Memory> {
        self.own.lock(rt).register_histogram(rt, alloc, key)
    }
}
