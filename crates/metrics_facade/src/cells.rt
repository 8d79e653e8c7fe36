//! The calls that a cell takes: what a counter, a gauge and a histogram do behind their handles.
//!
//! Each caller of a cell has a pass of it, by which its calls are told apart from those of others. A cell gives the
//! calls their meaning by two facts: which passes are its own, and which passes may stand after a call.

use metrics_core::{Fixed, Memory};
use std::alloc::Global;
use std::sync::{Arc, Wait};

/// What a counter takes.
pub trait CounterFn {
    ghost use Rattle.std.specs.Prelude.{ℕ};
    ghost use Rattle.metrics_core.specs.Calls.{Call, Increment, Absolute};

    /// What a caller of this cell has.
    type Pass;

    /// The pass is one of this cell.
    ghost is_pass: { Self → Self.Pass → Type 0 };

    /// The second pass may stand after this call with the first.
    ghost may_follow: { Self → Self.Pass → Call → Self.Pass → Type 0 };

    /// Adds to the counter, modulo 2^64.
    fn increment(&self, pass: &mut Self::Pass, value: u64)
        requires { is_pass self.now pass.old }
        ensures pass { is_pass self.now pass.new }
        ensures call { may_follow self.now pass.old (Increment value) pass.new };

    /// Raises the counter to this value, where it is less.
    fn absolute(&self, pass: &mut Self::Pass, value: u64)
        requires { is_pass self.now pass.old }
        ensures pass { is_pass self.now pass.new }
        ensures call { may_follow self.now pass.old (Absolute value) pass.new };
}

/// What a gauge takes.
pub trait GaugeFn {
    ghost use Rattle.metrics_core.specs.Calls.{Call, Add, Subtract, Set};

    /// What a caller of this cell has.
    type Pass;

    /// The pass is one of this cell.
    ghost is_pass: { Self → Self.Pass → Type 0 };

    /// The second pass may stand after this call with the first.
    ghost may_follow: { Self → Self.Pass → Call → Self.Pass → Type 0 };

    /// Adds to the gauge, modulo 2^64 billionths.
    fn increment(&self, pass: &mut Self::Pass, value: Fixed)
        requires { is_pass self.now pass.old }
        ensures pass { is_pass self.now pass.new }
        ensures call { may_follow self.now pass.old (Add value.0) pass.new };

    /// Takes off the gauge, modulo 2^64 billionths.
    fn decrement(&self, pass: &mut Self::Pass, value: Fixed)
        requires { is_pass self.now pass.old }
        ensures pass { is_pass self.now pass.new }
        ensures call { may_follow self.now pass.old (Subtract value.0) pass.new };

    /// Sets the gauge.
    fn set(&self, pass: &mut Self::Pass, value: Fixed)
        requires { is_pass self.now pass.old }
        ensures pass { is_pass self.now pass.new }
        ensures call { may_follow self.now pass.old (Set value.0) pass.new };
}

/// What a histogram takes. A record may wait, and takes memory.
pub trait HistogramFn {
    ghost use Rattle.std.specs.Prelude.{OnOk, OnErr};
    ghost use Rattle.metrics_core.specs.Calls.{Call, Record};

    /// What a caller of this cell has.
    type Pass;

    /// The pass is one of this cell.
    ghost is_pass: { Self → Self.Pass → Type 0 };

    /// The second pass may stand after this call with the first.
    ghost may_follow: { Self → Self.Pass → Call → Self.Pass → Type 0 };

    /// The second pass tells what the first one does: no call was made between them.
    ghost stays: { Self → Self.Pass → Self.Pass → Type 0 };

    /// Records a value with its moment, in nanoseconds. A call that is refused records nothing.
    fn record<R: Wait>(
        &self,
        rt: &R,
        alloc: Global,
        pass: &mut Self::Pass,
        value: Fixed,
        moment: u64,
    ) -> Result<(), Memory>
        requires { is_pass self.now pass.old }
        ensures pass { is_pass self.now pass.new }
        ensures call { OnOk result (may_follow self.now pass.old (Record value.0 moment 1) pass.new) }
        ensures refused { OnErr result (stays self.now pass.old pass.new) }
    {
        self.record_many(rt, alloc, pass, value, moment, 1)
    }

    /// Records a value with its moment, in nanoseconds, as often as `count` says, all or nothing.
    fn record_many<R: Wait>(
        &self,
        rt: &R,
        alloc: Global,
        pass: &mut Self::Pass,
        value: Fixed,
        moment: u64,
        count: u32,
    ) -> Result<(), Memory>
        requires { is_pass self.now pass.old }
        ensures pass { is_pass self.now pass.new }
        ensures call { OnOk result (may_follow self.now pass.old
            (Record value.0 moment count) pass.new) }
        ensures refused { OnErr result (stays self.now pass.old pass.new) };
}

impl<T: CounterFn> CounterFn for Arc<T> {
    ghost use Rattle.std.specs.Arc.{arc_value};

    type Pass = T::Pass;

    ghost is_pass = { λ arc. T.is_pass (arc_value arc) };

    ghost may_follow = { λ arc. T.may_follow (arc_value arc) };

    fn increment(&self, pass: &mut T::Pass, value: u64) {
        (**self).increment(pass, value);
    }

    fn absolute(&self, pass: &mut T::Pass, value: u64) {
        (**self).absolute(pass, value);
    }
}

impl<T: GaugeFn> GaugeFn for Arc<T> {
    ghost use Rattle.std.specs.Arc.{arc_value};

    type Pass = T::Pass;

    ghost is_pass = { λ arc. T.is_pass (arc_value arc) };

    ghost may_follow = { λ arc. T.may_follow (arc_value arc) };

    fn increment(&self, pass: &mut T::Pass, value: Fixed) {
        (**self).increment(pass, value);
    }

    fn decrement(&self, pass: &mut T::Pass, value: Fixed) {
        (**self).decrement(pass, value);
    }

    fn set(&self, pass: &mut T::Pass, value: Fixed) {
        (**self).set(pass, value);
    }
}

impl<T: HistogramFn> HistogramFn for Arc<T> {
    ghost use Rattle.std.specs.Arc.{arc_value};

    type Pass = T::Pass;

    ghost is_pass = { λ arc. T.is_pass (arc_value arc) };

    ghost may_follow = { λ arc. T.may_follow (arc_value arc) };

    ghost stays = { λ arc. T.stays (arc_value arc) };

    fn record<R: Wait>(
        &self,
        rt: &R,
        alloc: Global,
        pass: &mut T::Pass,
        value: Fixed,
        moment: u64,
    ) -> Result<(), Memory> {
        (**self).record(rt, alloc, pass, value, moment)
    }

    fn record_many<R: Wait>(
        &self,
        rt: &R,
        alloc: Global,
        pass: &mut T::Pass,
        value: Fixed,
        moment: u64,
        count: u32,
    ) -> Result<(), Memory> {
        (**self).record_many(rt, alloc, pass, value, moment, count)
    }
}
