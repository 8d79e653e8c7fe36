//! A histogram that each exporter hears.

ghost use Rattle.std.specs.Prelude.{◌≡◌, IfOk, OnOk, OnErr, Err};
ghost use Rattle.std.specs.Duration.{as_nanos};
ghost use Rattle.metrics_core.specs.Fixed.{fixed_of_billionths};
ghost use Rattle.metrics_core.specs.Calls.{Record};
ghost use Rattle.metrics_facade.specs.declared.faults.RecordFault.TheVariants as faults;
ghost use Rattle.dsd_forwarder.specs.Held.{Pushes};
ghost use Rattle.service_metrics.specs.Heard.{IfAny, IsRecorded, IsSample, PagedRecords, PagedStays};

use crate::RecordError;
use dsd_forwarder::HeldHistogram;
use metric_handles::HistogramHandle;
use metrics_core::{Fixed, IntoFixed};
use metrics_facade::RecordFault;
use sample_queue::{PromHistogram, SamplePass};
use scrape_loops::{Moments, SystemMoments};
use std::alloc::Global;
use std::io;
use std::marker::Model;
use std::sync::Wait;
use std::time::{Clock, Duration, Instant};

/// Records a value in the histogram of the flushes, where there is one.
fn record_flushed<R: Wait>(
    rt: &R,
    alloc: Global,
    part: &mut Option<HeldHistogram>,
    value: Fixed,
) -> Result<(), RecordFault>
    ensures recorded { OnOk result (IfAny (Pushes value) part.old part.new) }
    ensures refused { OnErr result ((result ≡ Err faults.Memory) × (part.new ≡ part.old)) }
{
    match part {
        Some(histogram) => histogram.record(rt, alloc, value),
        None => Ok(()),
    }
}

/// Records a value at a moment in the histogram of the pages, where there is one.
fn record_paged<R: Wait>(
    rt: &R,
    alloc: Global,
    part: &mut Option<HistogramHandle<PromHistogram, SamplePass<(Fixed, u64)>>>,
    value: Fixed,
    moment: u64,
) -> Result<(), RecordFault>
    ensures recorded { OnOk result (IfAny (PagedRecords (Record value.0 moment 1)) part.old
        part.new) }
    ensures refused { OnErr result ((result ≡ Err faults.Memory)
        × IfAny PagedStays part.old part.new) }
{
    match part {
        Some(histogram) => histogram.record(rt, alloc, value, moment),
        None => Ok(()),
    }
}

/// A histogram of a service. Contracts see it as its parts, one for each exporter that there is.
#[derive(Drop)]
pub struct ServiceHistogram<'a, R> {
    rt: &'a R,
    alloc: Global,
    moments: SystemMoments,
    paged: Option<HistogramHandle<PromHistogram, SamplePass<(Fixed, u64)>>>,
    flushed: Option<HeldHistogram>,
}

impl<'a, R> Model for ServiceHistogram<'a, R> {
    ghost use Rattle.service_metrics.specs.Heard.{HistogramParts};

    ghost Value = { HistogramParts };

    ghost view = { λ histogram. record { paged = histogram.paged; flushed = histogram.flushed } };
}

impl<'a, R> ServiceHistogram<'a, R> {
    /// The histogram of these parts.
    pub(crate) fn of(
        rt: &'a R,
        alloc: Global,
        paged: Option<HistogramHandle<PromHistogram, SamplePass<(Fixed, u64)>>>,
        flushed: Option<HeldHistogram>,
    ) -> ServiceHistogram<'a, R>
        ensures { result ≡ record { paged = paged; flushed = flushed } }
    {
        ServiceHistogram {
            rt,
            alloc,
            moments: SystemMoments::new(),
            paged,
            flushed,
        }
    }
}

impl<'a, R: Wait + Clock> ServiceHistogram<'a, R> {
    /// Records a value now; a span of time stands for its length in seconds. A value out of range is refused, and changes nothing, as
    /// does a clock that can't be read. Where memory is refused, flushes may have heard the value, and pages have not.
    pub fn record<T: IntoFixed>(&mut self, value: T) -> Result<(), RecordError>
        ensures { IsRecorded (T.fixed value) self.old self.new result }
    {
        let value = value.into_fixed().ok_or(RecordError::OutOfRange)?;
        let moment = self.moments.next_moment(self.rt)?;
        record_flushed(self.rt, self.alloc, &mut self.flushed, value)?;
        record_paged(self.rt, self.alloc, &mut self.paged, value, moment)?;
        Ok(())
    }

    /// The time from which `stop` measures.
    pub fn start(&self) -> io::Result<Instant> {
        Instant::now(self.rt)
    }

    /// Records how long it is since then, and answers it. It is refused as `record` is.
    pub fn stop(&mut self, started: Instant) -> Result<Duration, RecordError>
        ensures recorded { IfOk result (λ took.
            IsSample (fixed_of_billionths (as_nanos took)) self.old self.new) }
    {
        let Ok(took) = started.elapsed(self.rt) else {
            return Err(RecordError::Clock);
        };
        self.record(took)?;
        Ok(took)
    }
}
