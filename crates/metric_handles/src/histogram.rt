//! A histogram with its pass.

ghost use Rattle.std.specs.Prelude.{◌≡◌};
ghost use Rattle.metrics_core.specs.Calls.{Record};
ghost use Rattle.metrics_facade.specs.Handles.{Fits, Records, called};

use metrics_core::IntoFixed;
use metrics_facade::{Histogram, HistogramFn, RecordFault};
use std::alloc::Global;
use std::marker::Model;
use std::sync::Wait;

/// A handle of a histogram with the pass of who holds it. Contracts see it as the cell, where there is one, and the pass; the pass
/// is always one of the cell.
#[derive(Drop)]
pub struct HistogramHandle<F: HistogramFn<Pass = P> + Drop, P: Drop> {
    handle: Histogram<F>,
    pass: P,
}

impl<F: HistogramFn<Pass = P> + Drop, P: Drop> Model for HistogramHandle<F, P> {
    ghost use Rattle.metrics_facade.specs.Handles.{Fits};
    ghost use Rattle.metric_handles.specs.Carried.{Carried};

    ghost Value = { Carried F P };

    ghost view = { λ h. record { cell = h.handle; pass = h.pass } };

    ghost invariant = { λ h. Fits F.is_pass h.handle h.pass };
}

impl<F: HistogramFn<Pass = P> + Drop, P: Drop> HistogramHandle<F, P> {
    /// A handle with a pass of its cell. A handle without a cell takes any pass, and its calls do nothing.
    pub fn new(handle: Histogram<F>, pass: P) -> HistogramHandle<F, P>
        requires fits { Fits F.is_pass handle pass }
        ensures { result ≡ record { cell = handle; pass = pass } }
    {
        HistogramHandle { handle, pass }
    }

    /// Records a value with its moment, in nanoseconds; a span of time stands for its length in seconds. A call that is refused,
    /// for a value out of range or for want of memory, records nothing.
    pub fn record<T: IntoFixed, R: Wait>(
        &mut self,
        rt: &R,
        alloc: Global,
        value: T,
        moment: u64,
    ) -> Result<(), RecordFault>
        ensures call { Records F.is_pass F.may_follow F.stays self.old.cell self.old.pass
            self.new.pass
            (called (λ v. Record v moment 1) (T.fixed value)) result }
        ensures cell { self.new.cell ≡ self.old.cell }
    {
        self.handle.record(rt, alloc, &mut self.pass, value, moment)
    }

    /// Records a value with its moment, in nanoseconds, as often as `count` says, all or nothing. A call that is refused, for a
    /// value out of range or for want of memory, records nothing.
    pub fn record_many<T: IntoFixed, R: Wait>(
        &mut self,
        rt: &R,
        alloc: Global,
        value: T,
        moment: u64,
        count: u32,
    ) -> Result<(), RecordFault>
        ensures call { Records F.is_pass F.may_follow F.stays self.old.cell self.old.pass
            self.new.pass
            (called (λ v. Record v moment count) (T.fixed value)) result }
        ensures cell { self.new.cell ≡ self.old.cell }
    {
        self.handle
            .record_many(rt, alloc, &mut self.pass, value, moment, count)
    }

    /// The handle and the pass, to be given back where they came from.
    pub fn into_parts(self) -> (Histogram<F>, P)
        ensures parts { (result.0 ≡ self.cell) × (result.1 ≡ self.pass) }
        ensures fits { Fits F.is_pass result.0 result.1 }
    {
        let HistogramHandle { handle, pass } = self;
        (handle, pass)
    }
}
