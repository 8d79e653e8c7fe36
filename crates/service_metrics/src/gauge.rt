//! A gauge that each exporter hears.

ghost use Rattle.std.specs.Prelude.{◌≡◌, Ok, Some, option_map};
ghost use Rattle.metrics_core.specs.declared.gauge_values.GaugeValue.TheVariants as changes;
ghost use Rattle.dsd_forwarder.specs.Held.{Updates};
ghost use Rattle.service_metrics.specs.Heard.{HeardIfInRange, IfAny, PagedChanges, call_of};

use dsd_forwarder::HeldGauge;
use metric_handles::GaugeHandle;
use metrics_core::{GaugeValue, IntoFixed};
use metrics_facade::OutOfRange;
use series_cells::{CellPass, PromGauge};
use std::marker::Model;
use std::sync::Wait;

/// Changes the gauge of the pages, where there is one.
fn change_paged(
    part: &mut Option<GaugeHandle<PromGauge, CellPass>>,
    change: GaugeValue,
) -> Result<(), OutOfRange>
    ensures { (result ≡ Ok tt) × IfAny (PagedChanges (call_of change)) part.old part.new }
{
    let Some(gauge) = part else {
        return Ok(());
    };
    match change {
        GaugeValue::Absolute(value) => gauge.set(value),
        GaugeValue::Increment(value) => gauge.increment(value),
        GaugeValue::Decrement(value) => gauge.decrement(value),
    }
}

/// Changes the gauge of the flushes, where there is one.
fn change_flushed<R: Wait>(
    rt: &R,
    part: &mut Option<HeldGauge>,
    change: GaugeValue,
) -> Result<(), OutOfRange>
    ensures { (result ≡ Ok tt) × IfAny (Updates change) part.old part.new }
{
    let Some(gauge) = part else {
        return Ok(());
    };
    match change {
        GaugeValue::Absolute(value) => gauge.set(rt, value),
        GaugeValue::Increment(value) => gauge.increment(rt, value),
        GaugeValue::Decrement(value) => gauge.decrement(rt, value),
    }
}

/// A gauge of a service. Contracts see it as its parts, one for each exporter that there is.
#[derive(Drop)]
pub struct ServiceGauge<'a, R> {
    rt: &'a R,
    paged: Option<GaugeHandle<PromGauge, CellPass>>,
    flushed: Option<HeldGauge>,
}

impl<'a, R> Model for ServiceGauge<'a, R> {
    ghost use Rattle.service_metrics.specs.Heard.{GaugeParts};

    ghost Value = { GaugeParts };

    ghost view = { λ gauge. record { paged = gauge.paged; flushed = gauge.flushed } };
}

impl<'a, R> ServiceGauge<'a, R> {
    /// The gauge of these parts.
    pub(crate) fn of(
        rt: &'a R,
        paged: Option<GaugeHandle<PromGauge, CellPass>>,
        flushed: Option<HeldGauge>,
    ) -> ServiceGauge<'a, R>
        ensures { result ≡ record { paged = paged; flushed = flushed } }
    {
        ServiceGauge { rt, paged, flushed }
    }
}

impl<'a, R: Wait> ServiceGauge<'a, R> {
    /// Adds to the gauge, modulo 2^64 billionths. A value out of range is refused, and changes nothing.
    pub fn increment<T: IntoFixed>(&mut self, value: T) -> Result<(), OutOfRange>
        ensures { HeardIfInRange (option_map changes.Increment (T.fixed value)) self.old self.new
            result }
    {
        let value = value.into_fixed().ok_or(OutOfRange)?;
        self.change(GaugeValue::Increment(value))
    }

    /// Takes off the gauge, modulo 2^64 billionths. A value out of range is refused, and changes nothing.
    pub fn decrement<T: IntoFixed>(&mut self, value: T) -> Result<(), OutOfRange>
        ensures { HeardIfInRange (option_map changes.Decrement (T.fixed value)) self.old self.new
            result }
    {
        let value = value.into_fixed().ok_or(OutOfRange)?;
        self.change(GaugeValue::Decrement(value))
    }

    /// Sets the gauge. A value out of range is refused, and changes nothing.
    pub fn set<T: IntoFixed>(&mut self, value: T) -> Result<(), OutOfRange>
        ensures { HeardIfInRange (option_map changes.Absolute (T.fixed value)) self.old self.new
            result }
    {
        let value = value.into_fixed().ok_or(OutOfRange)?;
        self.change(GaugeValue::Absolute(value))
    }

    /// A change by a value in range, which each exporter hears.
    fn change(&mut self, change: GaugeValue) -> Result<(), OutOfRange>
        ensures { HeardIfInRange (Some change) self.old self.new result }
    {
        change_paged(&mut self.paged, change)?;
        change_flushed(self.rt, &mut self.flushed, change)
    }
}
