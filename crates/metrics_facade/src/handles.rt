//! Handles of cells: what a service holds and calls. A handle without a cell does nothing.

ghost use Rattle.std.specs.Prelude.{◌≡◌, Some, None, IfOk, IsOk, option_map};
ghost use Rattle.std.specs.Arc.{arc_value};
ghost use Rattle.metrics_core.specs.Calls.{Increment, Absolute, Add, Subtract, Set, Record};
ghost use Rattle.metrics_facade.specs.Handles.{Fits, Stands, Tells, Records, called};

use crate::{CounterFn, GaugeFn, HistogramFn, OutOfRange, RecordFault};
use metrics_core::{IntoFixed, Memory};
use std::alloc::Global;
use std::marker::Model;
use std::sync::{Arc, Wait};

/// The same cell, where there is one.
fn shared<F: Drop>(cell: &Option<Arc<F>>) -> Result<Option<Arc<F>>, Memory>
    ensures same { IfOk result (λ copy. option_map arc_value copy ≡ option_map arc_value cell.now) }
    ensures no_memory { option_map arc_value cell.now ≡ None → IsOk result }
{
    match cell {
        Some(cell) => Ok(Some(Arc::try_clone(cell)?)),
        None => Ok(None),
    }
}

/// A handle of a counter. Contracts see it as its cell, or as nothing.
#[derive(Drop)]
pub struct Counter<F> {
    cell: Option<Arc<F>>,
}

impl<F> Model for Counter<F> {
    ghost use Rattle.std.specs.Prelude.{Option, option_map};
    ghost use Rattle.std.specs.Arc.{arc_value};

    ghost Value = { Option F };

    ghost view = { λ handle. option_map arc_value handle.cell };
}

impl<F> Counter<F> {
    /// A handle that does nothing.
    pub fn noop() -> Counter<F>
        ensures { result ≡ None }
    {
        Counter { cell: None }
    }

    /// A handle of this cell.
    pub fn from_arc(cell: Arc<F>) -> Counter<F>
        ensures { result ≡ Some (arc_value cell) }
    {
        Counter { cell: Some(cell) }
    }
}

impl<F: Drop> Counter<F> {
    /// A handle of the same cell.
    pub fn clone(&self) -> Result<Counter<F>, Memory>
        ensures same { IfOk result (λ copy. copy ≡ self.now) }
        ensures no_memory { self.now ≡ None → IsOk result }
    {
        Ok(Counter {
            cell: shared(&self.cell)?,
        })
    }
}

impl<F: CounterFn> Counter<F> {
    /// Adds to the counter, modulo 2^64.
    pub fn increment(&self, pass: &mut F::Pass, value: u64)
        requires { Fits F.is_pass self.now pass.old }
        ensures { Stands F.is_pass F.may_follow self.now pass.old (Increment value) pass.new }
    {
        if let Some(cell) = &self.cell {
            (**cell).increment(pass, value);
        }
    }

    /// Raises the counter to this value, where it is less.
    pub fn absolute(&self, pass: &mut F::Pass, value: u64)
        requires { Fits F.is_pass self.now pass.old }
        ensures { Stands F.is_pass F.may_follow self.now pass.old (Absolute value) pass.new }
    {
        if let Some(cell) = &self.cell {
            (**cell).absolute(pass, value);
        }
    }
}

impl<F> From<Arc<F>> for Counter<F> {
    ghost from_gives = { λ cell handle. handle ≡ Some (arc_value cell) };

    fn from(cell: Arc<F>) -> Counter<F> {
        Counter::from_arc(cell)
    }
}

/// A handle of a gauge. Contracts see it as its cell, or as nothing.
#[derive(Drop)]
pub struct Gauge<F> {
    cell: Option<Arc<F>>,
}

impl<F> Model for Gauge<F> {
    ghost use Rattle.std.specs.Prelude.{Option, option_map};
    ghost use Rattle.std.specs.Arc.{arc_value};

    ghost Value = { Option F };

    ghost view = { λ handle. option_map arc_value handle.cell };
}

impl<F> Gauge<F> {
    /// A handle that does nothing.
    pub fn noop() -> Gauge<F>
        ensures { result ≡ None }
    {
        Gauge { cell: None }
    }

    /// A handle of this cell.
    pub fn from_arc(cell: Arc<F>) -> Gauge<F>
        ensures { result ≡ Some (arc_value cell) }
    {
        Gauge { cell: Some(cell) }
    }
}

impl<F: Drop> Gauge<F> {
    /// A handle of the same cell.
    pub fn clone(&self) -> Result<Gauge<F>, Memory>
        ensures same { IfOk result (λ copy. copy ≡ self.now) }
        ensures no_memory { self.now ≡ None → IsOk result }
    {
        Ok(Gauge {
            cell: shared(&self.cell)?,
        })
    }
}

impl<F: GaugeFn> Gauge<F> {
    /// Adds to the gauge, modulo 2^64 billionths. A value out of range is refused, and changes nothing.
    pub fn increment<T: IntoFixed>(&self, pass: &mut F::Pass, value: T) -> Result<(), OutOfRange>
        requires { Fits F.is_pass self.now pass.old }
        ensures { Tells F.is_pass F.may_follow self.now pass.old pass.new
            (called Add (T.fixed value)) result }
    {
        let value = value.into_fixed().ok_or(OutOfRange)?;
        if let Some(cell) = &self.cell {
            (**cell).increment(pass, value);
        }
        Ok(())
    }

    /// Takes off the gauge, modulo 2^64 billionths. A value out of range is refused, and changes nothing.
    pub fn decrement<T: IntoFixed>(&self, pass: &mut F::Pass, value: T) -> Result<(), OutOfRange>
        requires { Fits F.is_pass self.now pass.old }
        ensures { Tells F.is_pass F.may_follow self.now pass.old pass.new
            (called Subtract (T.fixed value)) result }
    {
        let value = value.into_fixed().ok_or(OutOfRange)?;
        if let Some(cell) = &self.cell {
            (**cell).decrement(pass, value);
        }
        Ok(())
    }

    /// Sets the gauge. A value out of range is refused, and changes nothing.
    pub fn set<T: IntoFixed>(&self, pass: &mut F::Pass, value: T) -> Result<(), OutOfRange>
        requires { Fits F.is_pass self.now pass.old }
        ensures { Tells F.is_pass F.may_follow self.now pass.old pass.new
            (called Set (T.fixed value)) result }
    {
        let value = value.into_fixed().ok_or(OutOfRange)?;
        if let Some(cell) = &self.cell {
            (**cell).set(pass, value);
        }
        Ok(())
    }
}

impl<F> From<Arc<F>> for Gauge<F> {
    ghost from_gives = { λ cell handle. handle ≡ Some (arc_value cell) };

    fn from(cell: Arc<F>) -> Gauge<F> {
        Gauge::from_arc(cell)
    }
}

/// A handle of a histogram. Contracts see it as its cell, or as nothing.
#[derive(Drop)]
pub struct Histogram<F> {
    cell: Option<Arc<F>>,
}

impl<F> Model for Histogram<F> {
    ghost use Rattle.std.specs.Prelude.{Option, option_map};
    ghost use Rattle.std.specs.Arc.{arc_value};

    ghost Value = { Option F };

    ghost view = { λ handle. option_map arc_value handle.cell };
}

impl<F> Histogram<F> {
    /// A handle that does nothing.
    pub fn noop() -> Histogram<F>
        ensures { result ≡ None }
    {
        Histogram { cell: None }
    }

    /// A handle of this cell.
    pub fn from_arc(cell: Arc<F>) -> Histogram<F>
        ensures { result ≡ Some (arc_value cell) }
    {
        Histogram { cell: Some(cell) }
    }
}

impl<F: Drop> Histogram<F> {
    /// A handle of the same cell.
    pub fn clone(&self) -> Result<Histogram<F>, Memory>
        ensures same { IfOk result (λ copy. copy ≡ self.now) }
        ensures no_memory { self.now ≡ None → IsOk result }
    {
        Ok(Histogram {
            cell: shared(&self.cell)?,
        })
    }
}

impl<F: HistogramFn> Histogram<F> {
    /// Records a value with its moment, in nanoseconds. A call that is refused, for a value out of range or for want
    /// of memory, records nothing.
    pub fn record<T: IntoFixed, R: Wait>(
        &self,
        rt: &R,
        alloc: Global,
        pass: &mut F::Pass,
        value: T,
        moment: u64,
    ) -> Result<(), RecordFault>
        requires { Fits F.is_pass self.now pass.old }
        ensures { Records F.is_pass F.may_follow F.stays self.now pass.old pass.new
            (called (λ v. Record v moment 1) (T.fixed value)) result }
    {
        let value = value.into_fixed().ok_or(RecordFault::OutOfRange)?;
        if let Some(cell) = &self.cell {
            (**cell).record(rt, alloc, pass, value, moment)?;
        }
        Ok(())
    }

    /// Records a value with its moment, in nanoseconds, as often as `count` says, all or nothing. A call that is
    /// refused, for a value out of range or for want of memory, records nothing.
    pub fn record_many<T: IntoFixed, R: Wait>(
        &self,
        rt: &R,
        alloc: Global,
        pass: &mut F::Pass,
        value: T,
        moment: u64,
        count: u32,
    ) -> Result<(), RecordFault>
        requires { Fits F.is_pass self.now pass.old }
        ensures { Records F.is_pass F.may_follow F.stays self.now pass.old pass.new
            (called (λ v. Record v moment count) (T.fixed value)) result }
    {
        let value = value.into_fixed().ok_or(RecordFault::OutOfRange)?;
        if let Some(cell) = &self.cell {
            (**cell).record_many(rt, alloc, pass, value, moment, count)?;
        }
        Ok(())
    }
}

impl<F> From<Arc<F>> for Histogram<F> {
    ghost from_gives = { λ cell handle. handle ≡ Some (arc_value cell) };

    fn from(cell: Arc<F>) -> Histogram<F> {
        Histogram::from_arc(cell)
    }
}
