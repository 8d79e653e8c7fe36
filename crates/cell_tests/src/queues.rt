//! Two threads that push while one drains, lanes that push, and a histogram of each kind.

ghost use Rattle.std.specs.Prelude.{◌≡◌};

use crate::lanes::two_lanes;
use cell_lanes::{Lender, LentCell, ListedLane, NoHook, OwnedCell, lanes_fit};
use metrics_core::{Fixed, Memory};
use metrics_facade::HistogramFn;
use sample_queue::{DsdHistogram, PromHistogram, Sample, SampleEntry, SampleQueue, run_queues};
use std::alloc::Global;
use std::sync::Wait;
use std::test::Fail;
use std::thread::{Threads, join, yield_now};

/// The entry that a histogram with moments gives after one record.
fn timed<R: Wait>(rt: &R, alloc: Global) -> Result<Option<SampleEntry<(Fixed, u64)>>, Memory> {
    let (histogram, mut pass) = PromHistogram::new(alloc)?;
    let _recorded = histogram.record(rt, alloc, &mut pass, Fixed(25), 7);
    Ok(histogram.next(rt, &mut pass))
}

/// The entry that a histogram without moments gives after one record.
fn untimed<R: Wait>(rt: &R, alloc: Global) -> Result<Option<SampleEntry<Fixed>>, Memory> {
    let (histogram, mut pass) = DsdHistogram::new(alloc)?;
    let _recorded = histogram.record(rt, alloc, &mut pass, Fixed(25), 7);
    Ok(histogram.next(rt, &mut pass))
}

#[test]
fn histograms_record(rt: HostRuntime) -> Result<(), Fail> {
    let item = (Fixed(25), 7);
    assert!(rt; timed(&rt, rt.alloc())? == Some(SampleEntry { item, count: 1 }));
    let item = Fixed(25);
    assert!(rt; untimed(&rt, rt.alloc())? == Some(SampleEntry { item, count: 1 }));
    Ok(())
}

/// An item of a lane: the lane, and which of its items it is.
type LaneItem = (bool, u32);

/// Pushes the lane's items in order.
fn push_all<R: Wait>(
    rt: &R,
    alloc: Global,
    lent: &mut LentCell<SampleQueue<LaneItem>>,
    lane: bool,
) -> Result<(), Memory> {
    for number in 0..500u32 {
        let item = (lane, number);
        lent.make(rt, alloc, &Sample { item, count: 1 })?;
    }
    Ok(())
}

/// Two threads push at once.
fn push_side_by_side<R: Threads + Wait + Sync>(
    rt: &R,
    alloc: Global,
    one: &mut LentCell<SampleQueue<LaneItem>>,
    two: &mut LentCell<SampleQueue<LaneItem>>,
) {
    let _pushed = join(
        rt,
        || push_all(rt, alloc, one, false),
        || push_all(rt, alloc, two, true),
    );
}

/// Takes so many items.
fn drain<R: Wait>(
    rt: &R,
    alloc: Global,
    queue: &mut OwnedCell<SampleQueue<LaneItem>>,
    wanted: usize,
) -> Result<Vec<LaneItem>, Memory> {
    let mut items = Vec::new(alloc);
    for _ in rt.forever() {
        if items.len() >= wanted {
            return Ok(items);
        }
        match queue.read(rt) {
            Some(entry) => items.push(entry.item)?,
            None => yield_now(),
        }
    }
    unreachable!()
}

/// What one thread drains while two others push, and whether the queue is empty afterwards.
fn drained_side_by_side<R: Threads + Wait + Sync>(
    rt: &R,
    alloc: Global,
    queue: &mut OwnedCell<SampleQueue<LaneItem>>,
) -> Result<(Vec<LaneItem>, bool), Memory>
    requires { queue.old.root.number ≡ 0 }
{
    let mut one = queue.lend(alloc)?;
    let mut two = queue.lend(alloc)?;
    let (items, ()) = join(
        rt,
        || drain(rt, alloc, queue, 1000),
        || push_side_by_side(rt, alloc, &mut one, &mut two),
    );
    Ok((items?, queue.read(rt).is_none()))
}

/// How many items each lane has, where each lane's come in order.
fn in_order(items: &[LaneItem]) -> Option<(u32, u32)> {
    let (mut first, mut second) = (0u32, 0u32);
    for (lane, number) in items {
        let next = if *lane { &mut second } else { &mut first };
        if *number != *next {
            return None;
        }
        *next = next.wrapping_add(1);
    }
    Some((first, second))
}

/// Whether a new queue ends empty, and each lane's five hundred items came in order. Here alone that queue is dropped.
fn none_is_lost<R: Threads + Wait + Sync>(rt: &R, alloc: Global) -> Result<bool, Memory> {
    let mut queue = SampleQueue::owned(alloc)?;
    let (items, is_empty) = drained_side_by_side(rt, alloc, &mut queue)?;
    Ok(is_empty && in_order(items.as_slice()) == Some((500, 500)))
}

#[test]
fn no_item_is_lost_or_repeated(rt: HostRuntime) -> Result<(), Fail> {
    assert!(rt; none_is_lost(&rt, rt.alloc())?);
    Ok(())
}

/// The front of a new queue after lanes.
fn front_after<R: Threads + Wait + Sync>(
    rt: &R,
    alloc: Global,
    lanes: &[ListedLane<Sample<u8>>],
) -> Result<Option<SampleEntry<u8>>, Memory> {
    if !lanes_fit(lanes, 1) {
        return Ok(None);
    }
    let mut queues = Vec::from_array(alloc, [SampleQueue::owned(alloc)?])?;
    run_queues(rt, alloc, &NoHook, &mut queues, lanes, 0)
}

/// How often the front was pushed at once where each of two lanes pushes its item twice.
fn pushed_by_lanes<R: Threads + Wait + Sync>(rt: &R, alloc: Global) -> Result<Option<u32>, Memory> {
    let samples = [5u8, 7].map(|item| Sample { item, count: 2 });
    let lanes = two_lanes(alloc, samples, 1)?;
    let front = front_after(rt, alloc, lanes.as_slice())?;
    Ok(front.map(|entry| entry.count))
}

#[test]
fn lanes_push_side_by_side(rt: HostRuntime) -> Result<(), Fail> {
    assert!(rt; pushed_by_lanes(&rt, rt.alloc())? == Some(2));
    Ok(())
}

fn is_shared<T: Send + Sync>() {}

#[test]
fn queues_are_shared() {
    is_shared::<PromHistogram>();
    is_shared::<DsdHistogram>();
}
