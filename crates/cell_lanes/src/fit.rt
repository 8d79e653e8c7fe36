//! Whether lanes name what is there, each once.
ghost use Rattle.std.specs.Prelude.{◌≡◌, ◌↔◌, ◌<◌, ℕ, IsTrue, true};
ghost use mathlib.Core.Option.{some};
ghost use lib.ListN.{get_elem?};
ghost use Rattle.legal_history.specs.History.{Distinct};
ghost use Rattle.legal_history.specs.Places.{Ascend};
ghost use Rattle.cell_lanes.specs.Lanes.{Fit, AllFit, HasSlot, LineFit, InOrder, AllInOrder};

use crate::lane::{Line, ListedLane};

/// Whether the indices ascend, and are below `count`.
fn ascend_below(cells: &[usize], count: usize) -> bool
    ensures ascend { IsTrue result ↔ Ascend 0 count cells.now }
    ensures once { result ≡ true → Distinct cells.now
        × ((s j : ℕ) → get_elem? cells.now s ≡ some j → j < count) }
{
    let mut next = 0;
    for cell in cells {
        if *cell < next || *cell >= count {
            return false;
        }
        next = *cell + 1;
    }
    true
}

/// Whether the line's slot is below `count`, or it is on no thing.
fn has_slot<K>(line: &Line<K>, count: usize) -> bool
    ensures { IsTrue result ↔ HasSlot count line.now }
{
    match line.slot {
        Some(slot) => slot < count,
        None => true,
    }
}

/// Whether each line has a slot below `count`, or is on no thing.
fn slots_below<K>(lines: &[Line<K>], count: usize) -> bool
    ensures { IsTrue result ↔ LineFit count lines.now }
{
    for line in lines {
        if !has_slot(line, count) {
            return false;
        }
    }
    true
}

/// Whether the lane names its things in ascending order, all of them below `count`, and has a slot for each line that is on
/// one.
pub fn lane_fits<K: Copy + Sync + Drop>(lane: &ListedLane<K>, count: usize) -> bool
    ensures in_order { IsTrue result ↔ InOrder count lane.now }
    ensures fit { result ≡ true → Fit count lane.now }
{
    let cells = lane.cells();
    ascend_below(cells, count) && slots_below(lane.lines().as_slice(), cells.len())
}

/// Whether each lane names its things so.
pub fn lanes_fit<K: Copy + Sync + Drop>(lanes: &[ListedLane<K>], count: usize) -> bool
    ensures in_order { IsTrue result ↔ AllInOrder count lanes.now }
    ensures fit { result ≡ true → AllFit count lanes.now }
{
    for lane in lanes {
        if !lane_fits(lane, count) {
            return false;
        }
    }
    true
}
