//! Rounds of lanes over queues.
ghost use Rattle.std.specs.Prelude.{◌<◌, length, IfOk, OnErr};
ghost use Rattle.cell_lanes.specs.Things.{root_of};
ghost use Rattle.cell_lanes.specs.Lanes.{Roots, AtRest, AllFit};
ghost use Rattle.sample_queue.specs.Rounds.{Popped, GivenAfter, PushesStopped};

use crate::calls::SampleEntry;
use crate::queue::SampleQueue;
use crate::series::Sample;
use cell_lanes::{LaneHook, ListedLane, OwnedCell, run_and_read};
use metrics_core::Memory;
use std::alloc::Global;
use std::sync::Wait;
use std::thread::Threads;

/// Runs lanes side by side over queues, and takes the front entry of the queue with this index. Each history has then grown by
/// the pushes of all lanes on it, in one order in which each lane's stand as the lane has them, and that of the queue by the pop
/// behind them. What is popped is the front of what was there before, followed by the samples of all lanes for it. All passes
/// are back at the end, also after a refusal; then a lane has calls left, or none has made any.
pub fn run_queues<R: Threads + Wait + Sync, H: LaneHook + Sync, T: Copy + Drop + Send + Sync>(
    rt: &R,
    alloc: Global,
    hook: &H,
    queues: &mut Vec<OwnedCell<SampleQueue<T>>>,
    lanes: &[ListedLane<Sample<T>>],
    index: usize,
) -> Result<Option<SampleEntry<T>>, Memory>
    requires roots { Roots root_of queues.old.items × AtRest root_of queues.old.items }
    requires fit { AllFit (length queues.old.items) lanes.now }
    requires index { index < length queues.old.items }
    ensures roots { Roots root_of queues.new.items × AtRest root_of queues.new.items }
    ensures finished { IfOk result (Popped lanes.now index queues.old.items queues.new.items) }
    ensures stopped { OnErr result (PushesStopped lanes.now queues.old.items queues.new.items) }
    ensures given { IfOk result (GivenAfter lanes.now index queues.old.items) }
{
    run_and_read(rt, alloc, hook, queues, lanes, index)
}
