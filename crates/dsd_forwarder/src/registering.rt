//! What a recorder does with a pass of the state that it shares: a series is registered, and lent.

ghost use Rattle.std.specs.Prelude.{◌≡◌, IfOk, OnErr};
ghost use Rattle.metrics_core.specs.declared.kinds.MetricKind.TheVariants as kinds;
ghost use Rattle.shared_turns.specs.Passes.{view_of};
ghost use Rattle.shared_flushes.specs.Passes.{IsPass};
ghost use Rattle.dsd_exporter.specs.Lending.{LendsCounter, LendsGauge, LendsHistogram};
ghost use Rattle.dsd_forwarder.specs.Registering.{HandsOut, MayRegister, IsHandedCounter, IsHandedGauge, IsHandedHistogram, IsLoneCounter, IsLoneGauge, IsLoneHistogram};

use dsd_exporter::Lent;
use flushed_cells::{CounterPass, DsdCounter, DsdGauge, GaugePass};
use metrics_core::{Fixed, Key, Memory, MetricKind, SeriesId};
use sample_queue::{DsdHistogram, SamplePass, SampleQueue};
use shared_flushes::{SharedState, StatePass};
use std::alloc::Global;
use std::sync::{Arc, Wait};

/// A counter that stands in no state, with its only pass.
fn lone_counter(alloc: Global, id: SeriesId) -> Result<Lent<Arc<DsdCounter>, CounterPass>, Memory>
    ensures { IfOk result (IsLoneCounter id) }
{
    let (counter, pass) = DsdCounter::new(alloc)?;
    Ok(Lent {
        handle: Arc::new(alloc, counter)?,
        pass,
        id,
    })
}

/// A gauge that stands in no state, with its only pass.
fn lone_gauge(alloc: Global, id: SeriesId) -> Result<Lent<Arc<DsdGauge>, GaugePass>, Memory>
    ensures { IfOk result (IsLoneGauge id) }
{
    let (gauge, pass) = DsdGauge::new(alloc)?;
    Ok(Lent {
        handle: Arc::new(alloc, gauge)?,
        pass,
        id,
    })
}

/// A histogram that stands in no state, with its only pass.
fn lone_histogram(
    alloc: Global,
    id: SeriesId,
) -> Result<Lent<Arc<DsdHistogram>, SamplePass<Fixed>>, Memory>
    ensures { IfOk result (IsLoneHistogram id) }
{
    let (histogram, pass) = SampleQueue::new(alloc)?;
    Ok(Lent {
        handle: Arc::new(alloc, histogram)?,
        pass,
        id,
    })
}

/// Registers a counter with a pass, as `SharedState::register` does, and lends it. Where no series could be made for it, past 2^64 - 1
/// series, what is lent stands in no state. Where lending is refused the series stays registered.
pub(crate) fn register_counter<R: Wait>(
    rt: &R,
    alloc: Global,
    state: &SharedState,
    pass: &mut StatePass,
    key: &Key,
) -> Result<Lent<Arc<DsdCounter>, CounterPass>, Memory>
    requires { IsPass state.now pass.old }
    ensures pass { IsPass state.now pass.new }
    ensures handed { IfOk result IsHandedCounter }
    ensures given { IfOk result (λ lent.
        HandsOut kinds.Counter LendsCounter IsLoneCounter key.now lent (view_of pass.old)
        (view_of pass.new)) }
    ensures refused { OnErr result (MayRegister kinds.Counter key.now (view_of pass.old)
        (view_of pass.new)) }
    ensures number { (view_of pass.new).number ≡ (view_of pass.old).number }
{
    let id = state.register(rt, alloc, pass, MetricKind::Counter, key)?;
    match state.lend_counter(rt, alloc, pass, id)? {
        Some(lent) => Ok(lent),
        None => lone_counter(alloc, id),
    }
}

/// Registers a gauge with a pass and lends it, as `register_counter` does a counter.
pub(crate) fn register_gauge<R: Wait>(
    rt: &R,
    alloc: Global,
    state: &SharedState,
    pass: &mut StatePass,
    key: &Key,
) -> Result<Lent<Arc<DsdGauge>, GaugePass>, Memory>
    requires { IsPass state.now pass.old }
    ensures pass { IsPass state.now pass.new }
    ensures handed { IfOk result IsHandedGauge }
    ensures given { IfOk result (λ lent.
        HandsOut kinds.Gauge LendsGauge IsLoneGauge key.now lent (view_of pass.old)
        (view_of pass.new)) }
    ensures refused { OnErr result (MayRegister kinds.Gauge key.now (view_of pass.old)
        (view_of pass.new)) }
    ensures number { (view_of pass.new).number ≡ (view_of pass.old).number }
{
    let id = state.register(rt, alloc, pass, MetricKind::Gauge, key)?;
    match state.lend_gauge(rt, alloc, pass, id)? {
        Some(lent) => Ok(lent),
        None => lone_gauge(alloc, id),
    }
}

/// Registers a histogram with a pass and lends it, as `register_counter` does a counter.
pub(crate) fn register_histogram<R: Wait>(
    rt: &R,
    alloc: Global,
    state: &SharedState,
    pass: &mut StatePass,
    key: &Key,
) -> Result<Lent<Arc<DsdHistogram>, SamplePass<Fixed>>, Memory>
    requires { IsPass state.now pass.old }
    ensures pass { IsPass state.now pass.new }
    ensures handed { IfOk result IsHandedHistogram }
    ensures given { IfOk result (λ lent.
        HandsOut kinds.Histogram LendsHistogram IsLoneHistogram key.now lent (view_of pass.old)
        (view_of pass.new)) }
    ensures refused { OnErr result (MayRegister kinds.Histogram key.now (view_of pass.old)
        (view_of pass.new)) }
    ensures number { (view_of pass.new).number ≡ (view_of pass.old).number }
{
    let id = state.register(rt, alloc, pass, MetricKind::Histogram, key)?;
    match state.lend_histogram(rt, alloc, pass, id)? {
        Some(lent) => Ok(lent),
        None => lone_histogram(alloc, id),
    }
}
