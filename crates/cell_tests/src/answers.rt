//! What cells of every kind answer.

use cell_lanes::{OwnedCell, SharedCell};
use metrics_core::Memory;
use std::alloc::Global;
use std::sync::Wait;

/// Whether this cell answers so where it is read, with these calls between the readings. None stands for a reading.
pub fn answers<C: SharedCell, R: Wait>(
    rt: &R,
    alloc: Global,
    cell: &mut OwnedCell<C>,
    calls: &[Option<C::Call>],
    expected: &[C::Reading],
) -> Result<bool, Memory>
where
    C::Reading: PartialEq,
{
    let mut left = expected.iter();
    let mut held = true;
    for asked in calls {
        match asked {
            Some(call) => cell.make(rt, alloc, call)?,
            None => held = left.next() == Some(&cell.read(rt)) && held,
        }
    }
    Ok(held && left.next().is_none())
}
