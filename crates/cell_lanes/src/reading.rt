//! A round of lanes over cells, and a reading of one of them after it.
ghost use Rattle.std.specs.Prelude.{◌≡◌, ◌<◌, length, IfOk, OnErr};
ghost use mathlib.Core.Option.{some};
ghost use lib.ListN.{get_elem?};
ghost use Rattle.cell_lanes.specs.Things.{Thing, root_of};
ghost use Rattle.cell_lanes.specs.Lanes.{Roots, AtRest, AllFit, Finished, Stopped, ReadAfter, all_calls_on, later_on};

use crate::cell::SharedCell;
use crate::hook::LaneHook;
use crate::lane::{Lane, LaneLines};
use crate::owned::OwnedCell;
use crate::round::run_lanes;
use metrics_core::Memory;
use std::alloc::Global;
use std::sync::Wait;
use std::thread::Threads;

/// Runs lanes side by side over cells, and reads the cell with this index. Each history has then grown by all calls of the lanes
/// on it, in one order in which each lane's calls stand as the lane has them, and the reading is made behind them. All passes are
/// back at the end, also after a refusal; then a lane has calls left, or none has made any.
pub fn run_and_read<
    R: Threads + Wait + Sync,
    H: LaneHook + Sync,
    C: SharedCell,
    L: LaneLines<Call = C::Call> + Sync,
>(
    rt: &R,
    alloc: Global,
    hook: &H,
    cells: &mut Vec<OwnedCell<C>>,
    lanes: &[Lane<L>],
    index: usize,
) -> Result<C::Reading, Memory>
    requires roots { Roots root_of cells.old.items × AtRest root_of cells.old.items }
    requires fit { AllFit (length cells.old.items) lanes.now }
    requires index { index < length cells.old.items }
    ensures roots { Roots root_of cells.new.items × AtRest root_of cells.new.items }
    ensures finished { IfOk result (λ reading.
        Finished root_of C.stands_as lanes.now
        (later_on index (C.read_as reading)) cells.old.items cells.new.items) }
    ensures stopped { OnErr result (Stopped root_of C.stands_as lanes.now cells.old.items
        cells.new.items) }
    ensures read { IfOk result (λ reading. (c : Thing C.Entry C)
        → get_elem? cells.old.items index ≡ some c
        → ReadAfter C.reads C.stands_as (all_calls_on index lanes.now) c.root reading) }
{
    match run_lanes(rt, alloc, hook, cells, lanes) {
        Ok(()) => Ok(cells[index].read(rt)),
        Err(refused) => Err(refused),
    }
}
