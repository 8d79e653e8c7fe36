//! What is called around each call of a lane.

use cell_lanes::LaneHook;
use std::sync::Wait;

/// What is called around each call of a lane of a script. It may wait, and tells nothing.
pub trait Gate {
    /// Called before the call with this number, from 0, that a lane makes in a round.
    fn before<R: Wait>(&self, rt: &R, lane: u8, call: u32);

    /// Called after the call with this number, from 0, that a lane makes in a round.
    fn after<R: Wait>(&self, rt: &R, lane: u8, call: u32);
}

/// A gate that returns at once.
#[derive(Clone, Copy, Debug, PartialEq, Eq)]
pub struct Free;

impl Gate for Free {
    fn before<R: Wait>(&self, _rt: &R, _lane: u8, _call: u32) {}

    fn after<R: Wait>(&self, _rt: &R, _lane: u8, _call: u32) {}
}

/// A gate as the hook of lanes. A call line of a script is two lines of its lane, one for each exporter: the gate is called before
/// the first of them and after the second, and not after the first where that is refused memory. A script has lanes 0 to 7, and
/// fewer than 2^32 call lines.
#[derive(Drop)]
pub(crate) struct GateHook<'a, G> {
    pub gate: &'a G,
}

impl<G: Gate> LaneHook for GateHook<'_, G> {
    fn before<R: Wait>(&self, rt: &R, lane: usize, call: usize) {
        if call % 2 == 0 {
            self.gate
                .before(rt, lane_number(lane), call_number(call / 2));
        }
    }

    fn after<R: Wait>(&self, rt: &R, lane: usize, call: usize) {
        if call % 2 == 1 {
            self.gate
                .after(rt, lane_number(lane), call_number(call / 2));
        }
    }
}

/// The number of a lane, or the greatest number there is.
fn lane_number(lane: usize) -> u8 {
    u8::try_from(lane).unwrap_or(u8::MAX)
}

/// The number of a call, or the greatest number there is.
fn call_number(call: usize) -> u32 {
    u32::try_from(call).unwrap_or(u32::MAX)
}
