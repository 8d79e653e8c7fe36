//! What is called around each call of a lane.

use std::sync::Wait;

/// A hook around the calls of lanes. It may wait, and tells nothing.
pub trait LaneHook {
    /// Called before the call with this number, from 0, of the lane with this number.
    fn before<R: Wait>(&self, rt: &R, lane: usize, call: usize);

    /// Called after the call with this number, from 0, of the lane with this number.
    fn after<R: Wait>(&self, rt: &R, lane: usize, call: usize);
}

/// A hook that returns at once.
#[derive(Clone, Copy, Debug, PartialEq, Eq)]
pub struct NoHook;

impl LaneHook for NoHook {
    fn before<R: Wait>(&self, _rt: &R, _lane: usize, _call: usize) {}

    fn after<R: Wait>(&self, _rt: &R, _lane: usize, _call: usize) {}
}
