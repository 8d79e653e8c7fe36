//! Rounds of lanes over counters and over gauges.
ghost use Rattle.std.specs.Prelude.{◌<◌, length, IfOk, OnErr};
ghost use Rattle.cell_lanes.specs.Things.{root_of};
ghost use Rattle.cell_lanes.specs.Lanes.{Roots, AtRest, AllFit};
ghost use Rattle.flushed_cells.specs.Rounds.{CountersFlushed, CountersStopped, CounterFlushed, GaugesFlushed, GaugesStopped, GaugeFlushed};

use crate::counter::DsdCounter;
use crate::counter_calls::CounterChange;
use crate::gauge::DsdGauge;
use crate::gauge_calls::GaugeChange;
use cell_lanes::{LaneHook, ListedLane, OwnedCell, run_and_read};
use metrics_core::{Fixed, Memory};
use std::alloc::Global;
use std::sync::Wait;
use std::thread::Threads;

/// Runs lanes side by side over counters, and flushes the counter with this index. Each history has then grown by all calls of the lanes
/// on it, in one order in which each lane's calls stand as the lane has them, and that of the counter by the flush behind them. The
/// flush answers what a counter of one thread has there. All passes are back at the end, also after a refusal; then a lane has calls
/// left, or none has made any.
pub fn run_counters<R: Threads + Wait + Sync, H: LaneHook + Sync>(
    rt: &R,
    alloc: Global,
    hook: &H,
    counters: &mut Vec<OwnedCell<DsdCounter>>,
    lanes: &[ListedLane<CounterChange>],
    index: usize,
) -> Result<(u64, u64), Memory>
    requires roots { Roots root_of counters.old.items × AtRest root_of counters.old.items }
    requires fit { AllFit (length counters.old.items) lanes.now }
    requires index { index < length counters.old.items }
    ensures roots { Roots root_of counters.new.items × AtRest root_of counters.new.items }
    ensures finished { IfOk result (CountersFlushed lanes.now index counters.old counters.new) }
    ensures stopped { OnErr result (CountersStopped lanes.now counters.old counters.new) }
    ensures flushed { IfOk result (CounterFlushed lanes.now index counters.old) }
{
    run_and_read(rt, alloc, hook, counters, lanes, index)
}

/// Runs lanes side by side over gauges, and flushes the gauge with this index. Each history has then grown by all calls of the lanes
/// on it, in one order in which each lane's calls stand as the lane has them, and that of the gauge by the flush behind them. The
/// flush answers what a gauge of one thread has there. All passes are back at the end, also after a refusal; then a lane has calls
/// left, or none has made any.
pub fn run_gauges<R: Threads + Wait + Sync, H: LaneHook + Sync>(
    rt: &R,
    alloc: Global,
    hook: &H,
    gauges: &mut Vec<OwnedCell<DsdGauge>>,
    lanes: &[ListedLane<GaugeChange>],
    index: usize,
) -> Result<(Fixed, u64), Memory>
    requires roots { Roots root_of gauges.old.items × AtRest root_of gauges.old.items }
    requires fit { AllFit (length gauges.old.items) lanes.now }
    requires index { index < length gauges.old.items }
    ensures roots { Roots root_of gauges.new.items × AtRest root_of gauges.new.items }
    ensures finished { IfOk result (GaugesFlushed lanes.now index gauges.old gauges.new) }
    ensures stopped { OnErr result (GaugesStopped lanes.now gauges.old gauges.new) }
    ensures flushed { IfOk result (GaugeFlushed lanes.now index gauges.old) }
{
    run_and_read(rt, alloc, hook, gauges, lanes, index)
}
