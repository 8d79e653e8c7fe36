//! Two threads on one counter, and on one gauge.

use crate::lanes::two_lanes;
use cell_lanes::{ListedLane, NoHook, lanes_fit};
use metrics_core::{Fixed, Memory, SeriesCall};
use series_cells::{PromCounter, PromGauge, run_counters, run_gauges};
use std::alloc::Global;
use std::sync::Wait;
use std::test::Fail;
use std::thread::Threads;

/// The value of a new counter after lanes. Here alone such a counter is dropped.
fn counted<R: Threads + Wait + Sync>(
    rt: &R,
    alloc: Global,
    lanes: &[ListedLane<SeriesCall>],
) -> Result<Option<u64>, Memory> {
    if !lanes_fit(lanes, 1) {
        return Ok(None);
    }
    let mut counters = Vec::from_array(alloc, [PromCounter::owned(alloc)?])?;
    Ok(run_counters(rt, alloc, &NoHook, &mut counters, lanes, 0).ok())
}

/// The value after two lanes added one to a counter, a thousand times each.
fn counted_by_two<R: Threads + Wait + Sync>(rt: &R, alloc: Global) -> Result<Option<u64>, Memory> {
    let lanes = two_lanes(alloc, [SeriesCall::Increment(1); 2], 1000)?;
    counted(rt, alloc, lanes.as_slice())
}

#[test]
fn two_threads_count_to_two_thousand(rt: HostRuntime) -> Result<(), Fail> {
    assert!(rt; counted_by_two(&rt, rt.alloc())? == Some(2000));
    Ok(())
}

/// The value of a new gauge after lanes. Here alone such a gauge is dropped.
fn moved<R: Threads + Wait + Sync>(
    rt: &R,
    alloc: Global,
    lanes: &[ListedLane<SeriesCall>],
) -> Result<Option<Fixed>, Memory> {
    if !lanes_fit(lanes, 1) {
        return Ok(None);
    }
    let mut gauges = Vec::from_array(alloc, [PromGauge::owned(alloc)?])?;
    Ok(run_gauges(rt, alloc, &NoHook, &mut gauges, lanes, 0).ok())
}

/// The value after one lane raised a gauge and another lowered it, a thousand times each.
fn moved_by_two<R: Threads + Wait + Sync>(rt: &R, alloc: Global) -> Result<Option<Fixed>, Memory> {
    let calls = [SeriesCall::Add(Fixed(3)), SeriesCall::Subtract(Fixed(5))];
    let lanes = two_lanes(alloc, calls, 1000)?;
    moved(rt, alloc, lanes.as_slice())
}

#[test]
fn two_threads_move_a_gauge(rt: HostRuntime) -> Result<(), Fail> {
    assert!(rt; moved_by_two(&rt, rt.alloc())? == Some(Fixed(-2000)));
    Ok(())
}

fn is_shared<T: Send + Sync>() {}

#[test]
fn counters_and_gauges_are_shared() {
    is_shared::<PromCounter>();
    is_shared::<PromGauge>();
}
