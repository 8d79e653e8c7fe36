//! Registering a series with a pass, and lending it.

ghost use Rattle.std.specs.Prelude.{◌≡◌, IfOk, None, OnErr};
ghost use Rattle.metrics_core.specs.declared.kinds.MetricKind.TheVariants.{Counter as ACounter, Gauge as AGauge, Histogram as AHistogram};
ghost use Rattle.prom_exporter.specs.Lending.{LendsCounter, LendsGauge, LendsHistogram};
ghost use Rattle.shared_recorder.specs.Recorder.{IsPass, Stays};
ghost use Rattle.shared_turns.specs.Passes.{view_of};
ghost use Rattle.prom_recorder.specs.Handing.{HandsOut, IsHandedCounter, IsHandedGauge, IsHandedHistogram, IsNewCounter, IsNewGauge, IsNewHistogram, IsItsOwn, RegistersInPart};

use crate::lent::{LentCounter, LentGauge, LentHistogram};
use metrics_core::{Key, Memory, SeriesId};
use metrics_facade::{Counter, Gauge, Histogram};
use prom_exporter::Lent;
use sample_queue::PromHistogram;
use series_cells::{PromCounter, PromGauge};
use shared_recorder::{SharedPass, SharedRecorder};
use std::alloc::Global;
use std::sync::{Arc, Wait};

/// Registers a counter, and lends it. Where it is refused the counter stays registered, or there is no entry.
pub(crate) fn hand_out_counter<R: Wait>(
    rt: &R,
    alloc: Global,
    recorder: &SharedRecorder,
    pass: &mut SharedPass,
    key: &Key,
) -> Result<LentCounter, Memory>
    requires { IsPass recorder.now pass.old }
    ensures pass { Stays recorder.now pass.old pass.new }
    ensures handed { IfOk result (λ lent.
        HandsOut ACounter LendsCounter IsNewCounter key.now lent (view_of pass.old)
        (view_of pass.new)) }
    ensures own { IfOk result (λ lent.
        IsItsOwn ACounter LendsCounter key.now lent (view_of pass.old) (view_of pass.new)) }
    ensures lent { IfOk result IsHandedCounter }
    ensures refused { OnErr result (RegistersInPart ACounter key.now (view_of pass.old)
        (view_of pass.new)) }
{
    let id = recorder.register_counter(rt, alloc, pass, key)?;
    match recorder.lend_counter(rt, alloc, pass, id)? {
        Some(lent) => Ok(lent),
        None => new_counter(alloc, id),
    }
}

/// Registers a gauge, and lends it, as `hand_out_counter` does a counter.
pub(crate) fn hand_out_gauge<R: Wait>(
    rt: &R,
    alloc: Global,
    recorder: &SharedRecorder,
    pass: &mut SharedPass,
    key: &Key,
) -> Result<LentGauge, Memory>
    requires { IsPass recorder.now pass.old }
    ensures pass { Stays recorder.now pass.old pass.new }
    ensures handed { IfOk result (λ lent.
        HandsOut AGauge LendsGauge IsNewGauge key.now lent (view_of pass.old) (view_of pass.new)) }
    ensures own { IfOk result (λ lent.
        IsItsOwn AGauge LendsGauge key.now lent (view_of pass.old) (view_of pass.new)) }
    ensures lent { IfOk result IsHandedGauge }
    ensures refused { OnErr result (RegistersInPart AGauge key.now (view_of pass.old)
        (view_of pass.new)) }
{
    let id = recorder.register_gauge(rt, alloc, pass, key)?;
    match recorder.lend_gauge(rt, alloc, pass, id)? {
        Some(lent) => Ok(lent),
        None => new_gauge(alloc, id),
    }
}

/// Registers a histogram, and lends it, as `hand_out_counter` does a counter.
pub(crate) fn hand_out_histogram<R: Wait>(
    rt: &R,
    alloc: Global,
    recorder: &SharedRecorder,
    pass: &mut SharedPass,
    key: &Key,
) -> Result<LentHistogram, Memory>
    requires { IsPass recorder.now pass.old }
    ensures pass { Stays recorder.now pass.old pass.new }
    ensures handed { IfOk result (λ lent.
        HandsOut AHistogram LendsHistogram IsNewHistogram key.now lent (view_of pass.old)
        (view_of pass.new)) }
    ensures own { IfOk result (λ lent.
        IsItsOwn AHistogram LendsHistogram key.now lent (view_of pass.old) (view_of pass.new)) }
    ensures lent { IfOk result IsHandedHistogram }
    ensures refused { OnErr result (RegistersInPart AHistogram key.now (view_of pass.old)
        (view_of pass.new)) }
{
    let id = recorder.register_histogram(rt, alloc, pass, key)?;
    match recorder.lend_histogram(rt, alloc, pass, id)? {
        Some(lent) => Ok(lent),
        None => new_histogram(alloc, id),
    }
}

/// A new counter that stands in no state, lent under an id.
fn new_counter(alloc: Global, id: SeriesId) -> Result<LentCounter, Memory>
    ensures { IfOk result (IsNewCounter id) }
{
    let (cell, mut root) = PromCounter::new(alloc)?;
    let pass = cell.split(alloc, &mut root)?;
    let handle = Counter::from_arc(Arc::new(alloc, cell)?);
    Ok(Lent { handle, pass, id })
}

/// A new gauge that stands in no state, lent under an id.
fn new_gauge(alloc: Global, id: SeriesId) -> Result<LentGauge, Memory>
    ensures { IfOk result (IsNewGauge id) }
{
    let (cell, mut root) = PromGauge::new(alloc)?;
    let pass = cell.split(alloc, &mut root)?;
    let handle = Gauge::from_arc(Arc::new(alloc, cell)?);
    Ok(Lent { handle, pass, id })
}

/// A new histogram that stands in no state, lent under an id.
fn new_histogram(alloc: Global, id: SeriesId) -> Result<LentHistogram, Memory>
    ensures { IfOk result (IsNewHistogram id) }
{
    let (queue, mut root) = PromHistogram::new(alloc)?;
    let pass = queue.split(alloc, &mut root)?;
    let handle = Histogram::from_arc(Arc::new(alloc, queue)?);
    Ok(Lent { handle, pass, id })
}
