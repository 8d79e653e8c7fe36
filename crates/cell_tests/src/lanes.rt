//! Lanes for the tests.

use cell_lanes::{Lane, Line, ListedLane};
use metrics_core::Memory;
use std::alloc::Global;

/// A lane with a number that makes a call so often, on the first cell.
pub fn lane_of<K: Copy + Sync + Drop>(
    alloc: Global,
    number: usize,
    call: K,
    times: usize,
) -> Result<ListedLane<K>, Memory> {
    let slot = Some(0);
    let lines = vec![in alloc; Line { slot, call }; times]?;
    let cells = vec![in alloc; 0usize]?;
    Ok(Lane::new(number, cells, lines))
}

/// Two lanes, each of which makes its call so often, on the first cell.
pub fn two_lanes<K: Copy + Sync + Drop>(
    alloc: Global,
    [first, second]: [K; 2],
    times: usize,
) -> Result<Vec<ListedLane<K>>, Memory> {
    let first = lane_of(alloc, 0, first, times)?;
    let second = lane_of(alloc, 1, second, times)?;
    Ok(Vec::from_array(alloc, [first, second])?)
}
