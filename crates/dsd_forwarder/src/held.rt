//! Series as those who count hold them: each with its pass, so that a call names no pass.

ghost use Rattle.std.specs.Prelude.{◌≡◌, Some, option_map};
ghost use Rattle.std.specs.Arc.{arc_value};
ghost use Rattle.dsd_forwarder.specs.Held.{Counts, Changes, Records};

use dsd_exporter::Lent;
use flushed_cells::{CounterPass, DsdCounter, DsdGauge, GaugePass};
use metrics_core::{Fixed, IntoFixed};
use metrics_facade::{OutOfRange, RecordFault};
use sample_queue::{DsdHistogram, SamplePass};
use std::alloc::Global;
use std::marker::Model;
use std::sync::{Arc, Wait};

/// A counter that was lent, with its pass. A contract sees it as its cell and what the pass knows.
#[derive(Drop)]
pub struct HeldCounter {
    cell: Arc<DsdCounter>,
    pass: CounterPass,
    ghost own: { IsCounterPass (arc_value cell) pass } by { one_counter_pass (arc_value cell) pass },
}

ghost use Rattle.flushed_cells.specs.Cells.{IsCounterPass, IsGaugePass, one_counter_pass, one_gauge_pass};
ghost use Rattle.sample_queue.specs.Passes.{IsSamplePass};
ghost use Rattle.sample_queue.specs.OneFact.{one_sample_pass};

impl Model for HeldCounter {
    ghost use Rattle.std.specs.Arc.{arc_value};
    ghost use Rattle.flushed_cells.specs.Passes.{view_of};
    ghost use Rattle.dsd_forwarder.specs.Held.{CounterLease};

    ghost Value = { CounterLease };

    ghost view = { λ held. record { cell = arc_value held.cell; knows = view_of held.pass } };
}

impl HeldCounter {
    ghost use Rattle.flushed_cells.specs.Passes.{view_of};
    ghost use Rattle.flushed_cells.specs.declared.counter_calls.CounterCall.TheVariants.{Increment, Absolute};

    /// Holds what an exporter lent of a counter.
    pub fn new(lent: Lent<Arc<DsdCounter>, CounterPass>) -> HeldCounter
        requires { IsCounterPass (arc_value lent.handle) lent.pass }
        ensures { result ≡ record { cell = arc_value lent.handle; knows = view_of lent.pass } }
    {
        let Lent {
            handle: cell,
            pass,
            id: _,
        } = lent;
        HeldCounter { cell, pass }
    }

    /// Adds to the counter, modulo 2^64.
    pub fn increment<R: Wait>(&mut self, rt: &R, value: u64)
        ensures { Counts (Increment value) self.old self.new }
    {
        self.cell.increment(rt, &mut self.pass, value);
    }

    /// Counts to this value: by how much it is greater than the last absolute value is added. After an increment, and at
    /// first, the value begins a new count.
    pub fn absolute<R: Wait>(&mut self, rt: &R, value: u64)
        ensures { Counts (Absolute value) self.old self.new }
    {
        self.cell.absolute(rt, &mut self.pass, value);
    }
}

/// A gauge that was lent, with its pass. A contract sees it as its cell and what the pass knows.
#[derive(Drop)]
pub struct HeldGauge {
    cell: Arc<DsdGauge>,
    pass: GaugePass,
    ghost own: { IsGaugePass (arc_value cell) pass } by { one_gauge_pass (arc_value cell) pass },
}

impl Model for HeldGauge {
    ghost use Rattle.std.specs.Arc.{arc_value};
    ghost use Rattle.flushed_cells.specs.Passes.{view_of};
    ghost use Rattle.dsd_forwarder.specs.Held.{GaugeLease};

    ghost Value = { GaugeLease };

    ghost view = { λ held. record { cell = arc_value held.cell; knows = view_of held.pass } };
}

impl HeldGauge {
    ghost use Rattle.flushed_cells.specs.Passes.{view_of};
    ghost use Rattle.metrics_core.specs.declared.gauge_values.GaugeValue.TheVariants.{Absolute, Increment, Decrement};

    /// Holds what an exporter lent of a gauge.
    pub fn new(lent: Lent<Arc<DsdGauge>, GaugePass>) -> HeldGauge
        requires { IsGaugePass (arc_value lent.handle) lent.pass }
        ensures { result ≡ record { cell = arc_value lent.handle; knows = view_of lent.pass } }
    {
        let Lent {
            handle: cell,
            pass,
            id: _,
        } = lent;
        HeldGauge { cell, pass }
    }

    /// Adds to the gauge, modulo 2^64 billionths. A value out of range is refused, and changes nothing.
    pub fn increment<T: IntoFixed, R: Wait>(&mut self, rt: &R, value: T) -> Result<(), OutOfRange>
        ensures { Changes (option_map Increment (T.fixed value)) self.old self.new result }
    {
        let value = value.into_fixed().ok_or(OutOfRange)?;
        self.cell.increment(rt, &mut self.pass, value);
        Ok(())
    }

    /// Takes off the gauge, modulo 2^64 billionths. A value out of range is refused, and changes nothing.
    pub fn decrement<T: IntoFixed, R: Wait>(&mut self, rt: &R, value: T) -> Result<(), OutOfRange>
        ensures { Changes (option_map Decrement (T.fixed value)) self.old self.new result }
    {
        let value = value.into_fixed().ok_or(OutOfRange)?;
        self.cell.decrement(rt, &mut self.pass, value);
        Ok(())
    }

    /// Sets the gauge. A value out of range is refused, and changes nothing.
    pub fn set<T: IntoFixed, R: Wait>(&mut self, rt: &R, value: T) -> Result<(), OutOfRange>
        ensures { Changes (option_map Absolute (T.fixed value)) self.old self.new result }
    {
        let value = value.into_fixed().ok_or(OutOfRange)?;
        self.cell.set(rt, &mut self.pass, value);
        Ok(())
    }
}

/// A histogram that was lent, with its pass. A contract sees it as its queue and what the pass knows.
#[derive(Drop)]
pub struct HeldHistogram {
    cell: Arc<DsdHistogram>,
    pass: SamplePass<Fixed>,
    ghost own: { IsSamplePass (arc_value cell) pass } by { one_sample_pass (arc_value cell) pass },
}

impl Model for HeldHistogram {
    ghost use Rattle.std.specs.Arc.{arc_value};
    ghost use Rattle.sample_queue.specs.Passes.{view_of};
    ghost use Rattle.dsd_forwarder.specs.Held.{HistogramLease};

    ghost Value = { HistogramLease };

    ghost view = { λ held. record { cell = arc_value held.cell; knows = view_of held.pass } };
}

impl HeldHistogram {
    ghost use Rattle.sample_queue.specs.Passes.{view_of};

    /// Holds what an exporter lent of a histogram.
    pub fn new(lent: Lent<Arc<DsdHistogram>, SamplePass<Fixed>>) -> HeldHistogram
        requires { IsSamplePass (arc_value lent.handle) lent.pass }
        ensures { result ≡ record { cell = arc_value lent.handle; knows = view_of lent.pass } }
    {
        let Lent {
            handle: cell,
            pass,
            id: _,
        } = lent;
        HeldHistogram { cell, pass }
    }

    /// Records a value. A call that is refused, for a value out of range or for want of memory, records nothing.
    pub fn record<T: IntoFixed, R: Wait>(
        &mut self,
        rt: &R,
        alloc: Global,
        value: T,
    ) -> Result<(), RecordFault>
        ensures { Records (T.fixed value) self.old self.new result }
    {
        let value = value.into_fixed().ok_or(RecordFault::OutOfRange)?;
        self.cell.push(rt, alloc, &mut self.pass, value, 1)?;
        Ok(())
    }
}
