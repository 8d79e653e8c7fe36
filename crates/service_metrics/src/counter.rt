//! A counter that each exporter hears.

ghost use Rattle.std.specs.Prelude.{◌≡◌};
ghost use Rattle.metrics_core.specs.Calls.{Increment, Absolute};
ghost use Rattle.flushed_cells.specs.declared.counter_calls.CounterCall.TheVariants as flushed_calls;
ghost use Rattle.dsd_forwarder.specs.Held.{Counts};
ghost use Rattle.service_metrics.specs.Heard.{Heard, IfAny, PagedCounts};

use dsd_forwarder::HeldCounter;
use metric_handles::CounterHandle;
use series_cells::{CellPass, PromCounter};
use std::marker::Model;
use std::sync::Wait;

/// Makes a call on the counter of the pages, where there is one.
fn increment_paged(part: &mut Option<CounterHandle<PromCounter, CellPass>>, value: u64)
    ensures { IfAny (PagedCounts (Increment value)) part.old part.new }
{
    if let Some(counter) = part {
        counter.increment(value);
    }
}

/// The same of an absolute value.
fn count_paged(part: &mut Option<CounterHandle<PromCounter, CellPass>>, value: u64)
    ensures { IfAny (PagedCounts (Absolute value)) part.old part.new }
{
    if let Some(counter) = part {
        counter.absolute(value);
    }
}

/// Makes a call on the counter of the flushes, where there is one.
fn increment_flushed<R: Wait>(rt: &R, part: &mut Option<HeldCounter>, value: u64)
    ensures { IfAny (Counts (flushed_calls.Increment value)) part.old part.new }
{
    if let Some(counter) = part {
        counter.increment(rt, value);
    }
}

/// The same of an absolute value.
fn count_flushed<R: Wait>(rt: &R, part: &mut Option<HeldCounter>, value: u64)
    ensures { IfAny (Counts (flushed_calls.Absolute value)) part.old part.new }
{
    if let Some(counter) = part {
        counter.absolute(rt, value);
    }
}

/// A counter of a service. Contracts see it as its parts, one for each exporter that there is.
#[derive(Drop)]
pub struct ServiceCounter<'a, R> {
    rt: &'a R,
    paged: Option<CounterHandle<PromCounter, CellPass>>,
    flushed: Option<HeldCounter>,
}

impl<'a, R> Model for ServiceCounter<'a, R> {
    ghost use Rattle.service_metrics.specs.Heard.{CounterParts};

    ghost Value = { CounterParts };

    ghost view = { λ counter. record { paged = counter.paged; flushed = counter.flushed } };
}

impl<'a, R> ServiceCounter<'a, R> {
    /// The counter of these parts.
    pub(crate) fn of(
        rt: &'a R,
        paged: Option<CounterHandle<PromCounter, CellPass>>,
        flushed: Option<HeldCounter>,
    ) -> ServiceCounter<'a, R>
        ensures { result ≡ record { paged = paged; flushed = flushed } }
    {
        ServiceCounter { rt, paged, flushed }
    }
}

impl<'a, R: Wait> ServiceCounter<'a, R> {
    /// Adds to the counter, modulo 2^64.
    pub fn increment(&mut self, value: u64)
        ensures { Heard (PagedCounts (Increment value)) (Counts (flushed_calls.Increment value))
            self.old self.new }
    {
        increment_paged(&mut self.paged, value);
        increment_flushed(self.rt, &mut self.flushed, value);
    }

    /// Counts to this value: pages show it where they showed less, and flushes send by how much it rose since the last such call.
    pub fn absolute(&mut self, value: u64)
        ensures { Heard (PagedCounts (Absolute value)) (Counts (flushed_calls.Absolute value))
            self.old self.new }
    {
        count_paged(&mut self.paged, value);
        count_flushed(self.rt, &mut self.flushed, value);
    }
}
