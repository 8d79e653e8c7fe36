//! A cell that does nothing.

use crate::{CounterFn, GaugeFn, HistogramFn};
use metrics_core::{Fixed, Memory};
use std::alloc::Global;
use std::sync::Wait;

/// A counter, a gauge and a histogram that take every call and do nothing. It is never refused memory.
#[derive(Clone, Copy, Debug, Default, PartialEq, Eq)]
pub struct NoopCell;

impl CounterFn for NoopCell {
    ghost use Rattle.std.specs.Prelude.{◌≡◌, ⊤};

    type Pass = ();

    ghost is_pass = { λ _ _. ⊤ };

    ghost may_follow = { λ _ before _ after. after ≡ before };

    fn increment(&self, _pass: &mut (), _value: u64) {}

    fn absolute(&self, _pass: &mut (), _value: u64) {}
}

impl GaugeFn for NoopCell {
    ghost use Rattle.std.specs.Prelude.{◌≡◌, ⊤};

    type Pass = ();

    ghost is_pass = { λ _ _. ⊤ };

    ghost may_follow = { λ _ before _ after. after ≡ before };

    fn increment(&self, _pass: &mut (), _value: Fixed) {}

    fn decrement(&self, _pass: &mut (), _value: Fixed) {}

    fn set(&self, _pass: &mut (), _value: Fixed) {}
}

impl HistogramFn for NoopCell {
    ghost use Rattle.std.specs.Prelude.{◌≡◌, ⊤, IsOk};

    type Pass = ();

    ghost is_pass = { λ _ _. ⊤ };

    ghost may_follow = { λ _ before _ after. after ≡ before };

    ghost stays = { λ _ before after. after ≡ before };

    fn record_many<R: Wait>(
        &self,
        _rt: &R,
        _alloc: Global,
        _pass: &mut (),
        _value: Fixed,
        _moment: u64,
        _count: u32,
    ) -> Result<(), Memory>
        ensures ok { IsOk result }
    {
        Ok(())
    }
}
