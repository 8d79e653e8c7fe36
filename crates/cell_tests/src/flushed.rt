//! Outside vectors of counters and gauges that are flushed, and two threads on them.

use crate::answers::answers;
use crate::lanes::two_lanes;
use cell_lanes::{ListedLane, NoHook, lanes_fit};
use flushed_cells::{CounterChange, DsdCounter, DsdGauge, GaugeChange, run_counters, run_gauges};
use metrics_core::{Fixed, GaugeValue, Memory};
use std::alloc::Global;
use std::sync::Wait;
use std::test::Fail;
use std::thread::Threads;

/// An amount close to the greatest one.
const GREAT: u64 = 18_446_744_073_709_486_080;

/// Amounts that are added, with a flush after each.
const ADDED: [Option<CounterChange>; 5] = [
    None,
    Some(CounterChange::Increment(42)),
    None,
    Some(CounterChange::Increment(GREAT)),
    None,
];

/// Rising values, with a flush after each.
const RAISED: [Option<CounterChange>; 6] = [
    Some(CounterChange::Absolute(42)),
    None,
    Some(CounterChange::Absolute(129)),
    None,
    Some(CounterChange::Absolute(142)),
    None,
];

/// Two values before a flush.
const TWICE: [Option<CounterChange>; 3] = [
    Some(CounterChange::Absolute(42)),
    Some(CounterChange::Absolute(108)),
    None,
];

/// Amounts and values that rise and fall.
const MIXED: [Option<CounterChange>; 11] = [
    Some(CounterChange::Increment(27)),
    Some(CounterChange::Absolute(42)),
    None,
    Some(CounterChange::Increment(13)),
    None,
    Some(CounterChange::Absolute(87)),
    None,
    Some(CounterChange::Absolute(80)),
    None,
    Some(CounterChange::Increment(78)),
    None,
];

/// Whether a new counter answers so. Here and after calls of each kind alone such a counter is dropped.
fn counts<R: Wait>(
    rt: &R,
    alloc: Global,
    calls: &[Option<CounterChange>],
    expected: &[(u64, u64)],
) -> Result<bool, Memory> {
    let mut counter = DsdCounter::owned(alloc)?;
    answers(rt, alloc, &mut counter, calls, expected)
}

#[test]
fn counters_answer_their_rows(rt: HostRuntime) -> Result<(), Fail> {
    let alloc = rt.alloc();
    assert!(rt; counts(&rt, alloc, &ADDED, &[(0, 0), (42, 1), (GREAT, 1)])?);
    assert!(rt; counts(&rt, alloc, &RAISED, &[(0, 1), (87, 1), (13, 1)])?);
    assert!(rt; counts(&rt, alloc, &TWICE, &[(66, 2)])?);
    assert!(rt;
        counts(
            &rt,
            alloc,
            &MIXED,
            &[(0, 2), (13, 1), (0, 1), (0, 1), (78, 1)]
        )?
    );
    Ok(())
}

/// A gauge that is lowered, with a flush after each step.
const LOWERED: [Option<GaugeChange>; 4] = [
    Some(GaugeChange::Update(GaugeValue::Decrement(Fixed(42)))),
    None,
    Some(GaugeChange::Update(GaugeValue::Decrement(Fixed(13)))),
    None,
];

/// A gauge that is set and raised, with two flushes behind it.
const SET: [Option<GaugeChange>; 4] = [
    Some(GaugeChange::Update(GaugeValue::Absolute(Fixed(5)))),
    Some(GaugeChange::Update(GaugeValue::Increment(Fixed(3)))),
    None,
    None,
];

/// Whether a new gauge answers so. Here and after calls of each kind alone such a gauge is dropped.
fn moves<R: Wait>(
    rt: &R,
    alloc: Global,
    calls: &[Option<GaugeChange>],
    expected: &[(Fixed, u64)],
) -> Result<bool, Memory> {
    let mut gauge = DsdGauge::owned(alloc)?;
    answers(rt, alloc, &mut gauge, calls, expected)
}

#[test]
fn gauges_answer_their_rows(rt: HostRuntime) -> Result<(), Fail> {
    let alloc = rt.alloc();
    assert!(rt; moves(&rt, alloc, &LOWERED, &[(Fixed(-42), 1), (Fixed(-55), 1)])?);
    assert!(rt; moves(&rt, alloc, &SET, &[(Fixed(8), 2), (Fixed(8), 0)])?);
    Ok(())
}

/// What a flush answers after a call of each kind on a counter.
fn counted_by_calls<R: Wait>(rt: &R, alloc: Global) -> Result<(u64, u64), Memory> {
    let (counter, mut pass) = DsdCounter::new(alloc)?;
    counter.absolute(rt, &mut pass, 5);
    counter.absolute(rt, &mut pass, 7);
    counter.increment(rt, &mut pass, 4);
    Ok(counter.flush(rt, &mut pass))
}

/// What a flush answers after a call of each kind on a gauge.
fn moved_by_calls<R: Wait>(rt: &R, alloc: Global) -> Result<(Fixed, u64), Memory> {
    let (gauge, mut pass) = DsdGauge::new(alloc)?;
    gauge.set(rt, &mut pass, Fixed(5));
    gauge.increment(rt, &mut pass, Fixed(4));
    gauge.decrement(rt, &mut pass, Fixed(6));
    Ok(gauge.flush(rt, &mut pass))
}

#[test]
fn calls_of_each_kind_are_made(rt: HostRuntime) -> Result<(), Fail> {
    assert!(rt; counted_by_calls(&rt, rt.alloc())? == (6, 3));
    assert!(rt; moved_by_calls(&rt, rt.alloc())? == (Fixed(3), 3));
    Ok(())
}

/// What a flush of a new counter answers after lanes.
fn counted<R: Threads + Wait + Sync>(
    rt: &R,
    alloc: Global,
    lanes: &[ListedLane<CounterChange>],
) -> Result<Option<(u64, u64)>, Memory> {
    if !lanes_fit(lanes, 1) {
        return Ok(None);
    }
    let mut counters = Vec::from_array(alloc, [DsdCounter::owned(alloc)?])?;
    Ok(run_counters(rt, alloc, &NoHook, &mut counters, lanes, 0).ok())
}

/// What a flush answers after two lanes added three to a counter, a thousand times each.
fn counted_by_lanes<R: Threads + Wait + Sync>(
    rt: &R,
    alloc: Global,
) -> Result<Option<(u64, u64)>, Memory> {
    let lanes = two_lanes(alloc, [CounterChange::Increment(3); 2], 1000)?;
    counted(rt, alloc, lanes.as_slice())
}

#[test]
fn lanes_count_side_by_side(rt: HostRuntime) -> Result<(), Fail> {
    assert!(rt; counted_by_lanes(&rt, rt.alloc())? == Some((6000, 2000)));
    Ok(())
}

/// What a flush of a new gauge answers after lanes.
fn moved<R: Threads + Wait + Sync>(
    rt: &R,
    alloc: Global,
    lanes: &[ListedLane<GaugeChange>],
) -> Result<Option<(Fixed, u64)>, Memory> {
    if !lanes_fit(lanes, 1) {
        return Ok(None);
    }
    let mut gauges = Vec::from_array(alloc, [DsdGauge::owned(alloc)?])?;
    Ok(run_gauges(rt, alloc, &NoHook, &mut gauges, lanes, 0).ok())
}

/// What a flush answers after one lane raised a gauge and another lowered it, a thousand times each.
fn moved_by_lanes<R: Threads + Wait + Sync>(
    rt: &R,
    alloc: Global,
) -> Result<Option<(Fixed, u64)>, Memory> {
    let add = GaugeChange::Update(GaugeValue::Increment(Fixed(3)));
    let take = GaugeChange::Update(GaugeValue::Decrement(Fixed(5)));
    let lanes = two_lanes(alloc, [add, take], 1000)?;
    moved(rt, alloc, lanes.as_slice())
}

#[test]
fn lanes_move_a_gauge_side_by_side(rt: HostRuntime) -> Result<(), Fail> {
    assert!(rt; moved_by_lanes(&rt, rt.alloc())? == Some((Fixed(-2000), 2000)));
    Ok(())
}

fn is_shared<T: Send + Sync>() {}

#[test]
fn cells_are_shared() {
    is_shared::<DsdCounter>();
    is_shared::<DsdGauge>();
}
