//! The hook around the calls of lanes.

ghost use Rattle.std.specs.Prelude.{◌<◌};

use crate::lanes::lane_of;
use cell_lanes::{
    Lane, LaneHook, Line, ListedLane, OwnedCell, SharedCell, lanes_fit, run_and_read,
};
use metrics_core::{Memory, SeriesCall};
use series_cells::{CellPass, PromCounter, run_counters};
use std::alloc::Global;
use std::sync::atomic::{AtomicU64, AtomicUsize, Ordering};
use std::sync::{Arc, Wait};
use std::test::Fail;
use std::thread::Threads;

/// A hook that adds up the numbers of the calls, counted from 1, before and after them.
#[derive(Drop)]
struct Adding {
    before: AtomicUsize,
    after: AtomicUsize,
}

impl LaneHook for Adding {
    fn before<R: Wait>(&self, _rt: &R, _lane: usize, call: usize) {
        self.before
            .fetch_add(call.wrapping_add(1), Ordering::SeqCst);
    }

    fn after<R: Wait>(&self, _rt: &R, _lane: usize, call: usize) {
        self.after.fetch_add(call.wrapping_add(1), Ordering::SeqCst);
    }
}

/// One lane of three lines, of which the second is on no thing.
fn lane_with_a_gap(alloc: Global) -> Result<ListedLane<SeriesCall>, Memory> {
    let lines = [(Some(0), 1), (None, 5), (Some(0), 2)].map(|(slot, count)| Line {
        slot,
        call: SeriesCall::Increment(count),
    });
    let lines = Vec::from_array(alloc, lines)?;
    let cells = vec![in alloc; 0usize]?;
    Ok(Lane::new(0, cells, lines))
}

/// What a new counter reads after lanes.
fn counted<R: Threads + Wait + Sync>(
    rt: &R,
    alloc: Global,
    hook: &Adding,
    lanes: &[ListedLane<SeriesCall>],
) -> Result<Option<u64>, Memory> {
    if !lanes_fit(lanes, 1) {
        return Ok(None);
    }
    let mut counters = Vec::from_array(alloc, [PromCounter::owned(alloc)?])?;
    Ok(run_counters(rt, alloc, hook, &mut counters, lanes, 0).ok())
}

/// What a counter reads after that lane.
fn counted_with_a_gap<R: Threads + Wait + Sync>(
    rt: &R,
    alloc: Global,
    hook: &Adding,
) -> Result<Option<u64>, Memory> {
    let lanes = Vec::from_array(alloc, [lane_with_a_gap(alloc)?])?;
    counted(rt, alloc, hook, lanes.as_slice())
}

#[test]
fn the_hook_is_called_around_a_line_on_no_thing(rt: HostRuntime) -> Result<(), Fail> {
    let hook = Adding {
        before: AtomicUsize::new(0),
        after: AtomicUsize::new(0),
    };
    assert!(rt; counted_with_a_gap(&rt, rt.alloc(), &hook)? == Some(3));
    assert!(rt; hook.before.load(Ordering::SeqCst) == 6 && hook.after.load(Ordering::SeqCst) == 6);
    Ok(())
}

/// A counter beside the sum of what was added to it, which its calls raise and anyone may read.
#[derive(Drop)]
struct Watched {
    counter: PromCounter,
    held: Arc<AtomicU64>,
}

/// The amount that a call adds.
fn amount(call: &SeriesCall) -> u64 {
    match *call {
        SeriesCall::Increment(amount) => amount,
        SeriesCall::Absolute(_)
        | SeriesCall::Add(_)
        | SeriesCall::Subtract(_)
        | SeriesCall::Set(_)
        | SeriesCall::Record { .. } => 0,
    }
}

impl SharedCell for Watched {
    ghost use Rattle.cell_lanes.specs.Calls.{Shows};
    ghost use Rattle.series_cells.specs.Pass.{IsCounterPass, one_counter_pass, view_of};
    ghost use Rattle.series_cells.specs.Series.{StandsAsCounter, no_call, counted};
    ghost use Rattle.cell_lanes.proofs.Played.{shown_found};

    type Pass = CellPass;

    type Call = SeriesCall;

    type Entry = SeriesCall;

    type Reading = u64;

    ghost is_pass = { λ watched pass. IsCounterPass watched.counter pass };

    ghost is_one_fact = { λ watched pass. one_counter_pass watched.counter pass };

    ghost view = { view_of };

    ghost stands_as = { StandsAsCounter };

    ghost read_as = { no_call };

    ghost reads = { Shows counted };

    ghost readings_stand = { shown_found counted };

    fn make<R: Wait>(
        &self,
        rt: &R,
        alloc: Global,
        pass: &mut CellPass,
        call: &SeriesCall,
    ) -> Result<(), Memory> {
        self.held.fetch_add(amount(call), Ordering::SeqCst);
        SharedCell::make(&self.counter, rt, alloc, pass, call)
    }

    fn read<R: Wait>(&self, _rt: &R, pass: &mut CellPass) -> u64 {
        self.counter.load(pass)
    }

    fn split(&self, alloc: Global, pass: &mut CellPass) -> Result<CellPass, Memory> {
        self.counter.split(alloc, pass)
    }

    fn join(&self, pass: &mut CellPass, child: CellPass) {
        self.counter.join(pass, child);
    }

    fn settle<R: Wait>(&self, rt: &R, pass: &mut CellPass) {
        SharedCell::settle(&self.counter, rt, pass);
    }
}

/// What the calls of a lane add: the numbers of the lanes are 0, 2 and 7, and each has its own digits of a sum.
fn digits(lane: usize) -> u64
    ensures { 0 < result }
{
    match lane {
        0 => 1,
        2 => 100,
        7 => 10_000,
        _ => 1_000_000,
    }
}

/// A hook that adds up what it is told before and after calls, where the sum that it then finds has as many calls of the lane.
#[derive(Drop)]
struct Watching {
    held: Arc<AtomicU64>,
    before: AtomicU64,
    after: AtomicU64,
}

/// Adds the lane to what was told, where the sum that is held has so many of its calls.
fn tell(told: &AtomicU64, held: &AtomicU64, lane: usize, calls: usize) {
    let made = held.load(Ordering::SeqCst) / digits(lane) % 100;
    if u64::try_from(calls) == Ok(made) {
        told.fetch_add(digits(lane), Ordering::SeqCst);
    }
}

impl LaneHook for Watching {
    fn before<R: Wait>(&self, _rt: &R, lane: usize, call: usize) {
        tell(&self.before, &self.held, lane, call);
    }

    fn after<R: Wait>(&self, _rt: &R, lane: usize, call: usize) {
        tell(&self.after, &self.held, lane, call.wrapping_add(1));
    }
}

/// A lane of two calls, each of which adds its digits.
fn lane_of_two(alloc: Global, number: usize) -> Result<ListedLane<SeriesCall>, Memory> {
    lane_of(alloc, number, SeriesCall::Increment(digits(number)), 2)
}

/// Three lanes with the numbers 0, 2 and 7.
fn three_lanes(alloc: Global) -> Result<Vec<ListedLane<SeriesCall>>, Memory> {
    let first = lane_of_two(alloc, 0)?;
    let second = lane_of_two(alloc, 2)?;
    let third = lane_of_two(alloc, 7)?;
    Ok(Vec::from_array(alloc, [first, second, third])?)
}

/// What a new watched counter reads after lanes. Here alone it is dropped.
fn read_after<R: Threads + Wait + Sync>(
    rt: &R,
    alloc: Global,
    hook: &Watching,
    lanes: &[ListedLane<SeriesCall>],
) -> Result<Option<u64>, Memory> {
    if !lanes_fit(lanes, 1) {
        return Ok(None);
    }
    let held = hook.held.clone()?;
    let (counter, root) = PromCounter::new(alloc)?;
    let cell = OwnedCell::unlent(alloc, Watched { counter, held }, root)?;
    let mut cells = Vec::from_array(alloc, [cell])?;
    Ok(run_and_read(rt, alloc, hook, &mut cells, lanes, 0).ok())
}

/// What a watched counter reads after the three lanes.
fn read_after_three<R: Threads + Wait + Sync>(
    rt: &R,
    alloc: Global,
    hook: &Watching,
) -> Result<Option<u64>, Memory> {
    let lanes = three_lanes(alloc)?;
    read_after(rt, alloc, hook, lanes.as_slice())
}

#[test]
fn the_hook_is_told_before_and_after_each_call(rt: HostRuntime) -> Result<(), Fail> {
    let hook = Watching {
        held: Arc::new(rt.alloc(), AtomicU64::new(0))?,
        before: AtomicU64::new(0),
        after: AtomicU64::new(0),
    };
    let read = read_after_three(&rt, rt.alloc(), &hook)?;
    let told = [&hook.before, &hook.after].map(|told| told.load(Ordering::SeqCst));
    assert!(rt; read == Some(20_202) && told == [20_202, 20_202]);
    Ok(())
}
