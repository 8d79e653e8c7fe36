//! A gauge with its pass.

ghost use Rattle.std.specs.Prelude.{◌≡◌};
ghost use Rattle.metrics_core.specs.Calls.{Add, Subtract, Set};
ghost use Rattle.metrics_facade.specs.Handles.{Fits, Tells, called};

use metrics_core::IntoFixed;
use metrics_facade::{Gauge, GaugeFn, OutOfRange};
use std::marker::Model;

/// A handle of a gauge with the pass of who holds it. Contracts see it as the cell, where there is one, and the pass; the pass is
/// always one of the cell.
#[derive(Drop)]
pub struct GaugeHandle<F: GaugeFn<Pass = P> + Drop, P: Drop> {
    handle: Gauge<F>,
    pass: P,
}

impl<F: GaugeFn<Pass = P> + Drop, P: Drop> Model for GaugeHandle<F, P> {
    ghost use Rattle.metrics_facade.specs.Handles.{Fits};
    ghost use Rattle.metric_handles.specs.Carried.{Carried};

    ghost Value = { Carried F P };

    ghost view = { λ h. record { cell = h.handle; pass = h.pass } };

    ghost invariant = { λ h. Fits F.is_pass h.handle h.pass };
}

impl<F: GaugeFn<Pass = P> + Drop, P: Drop> GaugeHandle<F, P> {
    /// A handle with a pass of its cell. A handle without a cell takes any pass, and its calls do nothing.
    pub fn new(handle: Gauge<F>, pass: P) -> GaugeHandle<F, P>
        requires fits { Fits F.is_pass handle pass }
        ensures { result ≡ record { cell = handle; pass = pass } }
    {
        GaugeHandle { handle, pass }
    }

    /// Adds to the gauge, modulo 2^64 billionths. A value out of range is refused, and changes nothing.
    pub fn increment<T: IntoFixed>(&mut self, value: T) -> Result<(), OutOfRange>
        ensures call { Tells F.is_pass F.may_follow self.old.cell self.old.pass self.new.pass
            (called Add (T.fixed value)) result }
        ensures cell { self.new.cell ≡ self.old.cell }
    {
        self.handle.increment(&mut self.pass, value)
    }

    /// Takes off the gauge, modulo 2^64 billionths. A value out of range is refused, and changes nothing.
    pub fn decrement<T: IntoFixed>(&mut self, value: T) -> Result<(), OutOfRange>
        ensures call { Tells F.is_pass F.may_follow self.old.cell self.old.pass self.new.pass
            (called Subtract (T.fixed value)) result }
        ensures cell { self.new.cell ≡ self.old.cell }
    {
        self.handle.decrement(&mut self.pass, value)
    }

    /// Sets the gauge. A value out of range is refused, and changes nothing.
    pub fn set<T: IntoFixed>(&mut self, value: T) -> Result<(), OutOfRange>
        ensures call { Tells F.is_pass F.may_follow self.old.cell self.old.pass self.new.pass
            (called Set (T.fixed value)) result }
        ensures cell { self.new.cell ≡ self.old.cell }
    {
        self.handle.set(&mut self.pass, value)
    }

    /// The handle and the pass, to be given back where they came from.
    pub fn into_parts(self) -> (Gauge<F>, P)
        ensures parts { (result.0 ≡ self.cell) × (result.1 ≡ self.pass) }
        ensures fits { Fits F.is_pass result.0 result.1 }
    {
        let GaugeHandle { handle, pass } = self;
        (handle, pass)
    }
}
