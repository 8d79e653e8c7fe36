//! Rounds of lanes over counters and over gauges.
ghost use Rattle.std.specs.Prelude.{◌≡◌, ◌<◌, length, IfOk, OnOk, OnErr};
ghost use mathlib.Core.Option.{some};
ghost use lib.ListN.{get_elem?};
ghost use Rattle.cell_lanes.specs.Things.{Thing, root_of};
ghost use Rattle.cell_lanes.specs.Lanes.{Roots, AtRest, AllFit, Finished, Stopped, all_calls_on, none_later};
ghost use Rattle.metrics_core.specs.declared.calls.SeriesCall.{SeriesCall};
ghost use Rattle.series_cells.specs.declared.counter.PromCounter.{PromCounter};
ghost use Rattle.series_cells.specs.declared.gauge.PromGauge.{PromGauge};
ghost use Rattle.series_cells.specs.Series.{StandsAsCounter, StandsAsGauge, PlayedByCounter, PlayedByGauge};

use crate::counter::PromCounter;
use crate::gauge::PromGauge;
use cell_lanes::{LaneHook, ListedLane, OwnedCell, run_and_read};
use metrics_core::{Fixed, Memory, SeriesCall};
use std::alloc::Global;
use std::sync::Wait;
use std::thread::Threads;

/// Runs lanes side by side over counters, and reads the counter with this index. Each history has then grown by all calls of the
/// lanes on it, in one order in which each lane's calls stand as the lane has them, and the value is that after them. All passes
/// are back at the end, also after a refusal; then a lane has calls left, or none has made any.
pub fn run_counters<R: Threads + Wait + Sync, H: LaneHook + Sync>(
    rt: &R,
    alloc: Global,
    hook: &H,
    counters: &mut Vec<OwnedCell<PromCounter>>,
    lanes: &[ListedLane<SeriesCall>],
    index: usize,
) -> Result<u64, Memory>
    requires roots { Roots root_of counters.old.items × AtRest root_of counters.old.items }
    requires fit { AllFit (length counters.old.items) lanes.now }
    requires index { index < length counters.old.items }
    ensures roots { Roots root_of counters.new.items × AtRest root_of counters.new.items }
    ensures finished { OnOk result (Finished root_of StandsAsCounter lanes.now none_later
        counters.old.items counters.new.items) }
    ensures stopped { OnErr result (Stopped root_of StandsAsCounter lanes.now counters.old.items
        counters.new.items) }
    ensures value { IfOk result (λ n. (c : Thing SeriesCall PromCounter)
        → get_elem? counters.old.items index ≡ some c
        → PlayedByCounter (all_calls_on index lanes.now) c.root n) }
{
    run_and_read(rt, alloc, hook, counters, lanes, index)
}

/// Runs lanes side by side over gauges, and reads the gauge with this index, as `run_counters` does over counters.
pub fn run_gauges<R: Threads + Wait + Sync, H: LaneHook + Sync>(
    rt: &R,
    alloc: Global,
    hook: &H,
    gauges: &mut Vec<OwnedCell<PromGauge>>,
    lanes: &[ListedLane<SeriesCall>],
    index: usize,
) -> Result<Fixed, Memory>
    requires roots { Roots root_of gauges.old.items × AtRest root_of gauges.old.items }
    requires fit { AllFit (length gauges.old.items) lanes.now }
    requires index { index < length gauges.old.items }
    ensures roots { Roots root_of gauges.new.items × AtRest root_of gauges.new.items }
    ensures finished { OnOk result (Finished root_of StandsAsGauge lanes.now none_later
        gauges.old.items gauges.new.items) }
    ensures stopped { OnErr result (Stopped root_of StandsAsGauge lanes.now gauges.old.items
        gauges.new.items) }
    ensures value { IfOk result (λ value. (c : Thing SeriesCall PromGauge)
        → get_elem? gauges.old.items index ≡ some c
        → PlayedByGauge (all_calls_on index lanes.now) c.root value) }
{
    run_and_read(rt, alloc, hook, gauges, lanes, index)
}
