//! A counter with its pass.

ghost use Rattle.std.specs.Prelude.{◌≡◌};
ghost use Rattle.metrics_core.specs.Calls.{Increment, Absolute};
ghost use Rattle.metrics_facade.specs.Handles.{Fits, Stands};

use metrics_facade::{Counter, CounterFn};
use std::marker::Model;

/// A handle of a counter with the pass of who holds it. Contracts see it as the cell, where there is one, and the pass; the pass
/// is always one of the cell.
#[derive(Drop)]
pub struct CounterHandle<F: CounterFn<Pass = P> + Drop, P: Drop> {
    handle: Counter<F>,
    pass: P,
}

impl<F: CounterFn<Pass = P> + Drop, P: Drop> Model for CounterHandle<F, P> {
    ghost use Rattle.metrics_facade.specs.Handles.{Fits};
    ghost use Rattle.metric_handles.specs.Carried.{Carried};

    ghost Value = { Carried F P };

    ghost view = { λ h. record { cell = h.handle; pass = h.pass } };

    ghost invariant = { λ h. Fits F.is_pass h.handle h.pass };
}

impl<F: CounterFn<Pass = P> + Drop, P: Drop> CounterHandle<F, P> {
    /// A handle with a pass of its cell. A handle without a cell takes any pass, and its calls do nothing.
    pub fn new(handle: Counter<F>, pass: P) -> CounterHandle<F, P>
        requires fits { Fits F.is_pass handle pass }
        ensures { result ≡ record { cell = handle; pass = pass } }
    {
        CounterHandle { handle, pass }
    }

    /// Adds to the counter, modulo 2^64.
    pub fn increment(&mut self, value: u64)
        ensures call { Stands F.is_pass F.may_follow self.old.cell self.old.pass
            (Increment value) self.new.pass }
        ensures cell { self.new.cell ≡ self.old.cell }
    {
        self.handle.increment(&mut self.pass, value);
    }

    /// Raises the counter to this value, where it is less.
    pub fn absolute(&mut self, value: u64)
        ensures call { Stands F.is_pass F.may_follow self.old.cell self.old.pass
            (Absolute value) self.new.pass }
        ensures cell { self.new.cell ≡ self.old.cell }
    {
        self.handle.absolute(&mut self.pass, value);
    }

    /// The handle and the pass, to be given back where they came from.
    pub fn into_parts(self) -> (Counter<F>, P)
        ensures parts { (result.0 ≡ self.cell) × (result.1 ≡ self.pass) }
        ensures fits { Fits F.is_pass result.0 result.1 }
    {
        let CounterHandle { handle, pass } = self;
        (handle, pass)
    }
}
