//! The metrics of a service.

ghost use Rattle.std.specs.Prelude.{◌≡◌, [], IfOk, option_copied};
ghost use Rattle.service_metrics.specs.Heard.{IsNewCounter, IsNewGauge, IsNewHistogram, IsPartOf, IsUncalledCounter, IsUncalledGauge, IsUncalledHistogram};

use crate::{ServiceCounter, ServiceGauge, ServiceHistogram};
use dsd_forwarder::{DogStatsDRecorder, HeldCounter, HeldGauge, HeldHistogram};
use metric_handles::{CounterHandle, GaugeHandle, HistogramHandle};
use metrics_core::{Fixed, IntoLabels, Key, KeyName, Level, Memory, Metadata, SharedString, Unit};
use metrics_facade::Recorder;
use prom_recorder::{IntoHandle, PrometheusRecorder};
use sample_queue::{PromHistogram, SamplePass};
use series_cells::{CellPass, PromCounter, PromGauge};
use std::alloc::Global;
use std::marker::Model;
use std::sync::Wait;

/// The metrics of a service: what registers and describes them with each recorder that there is. Threads may share it.
#[derive(Drop)]
pub struct Metrics<'a, R> {
    rt: &'a R,
    alloc: Global,
    pages: Option<&'a PrometheusRecorder>,
    flushes: Option<&'a DogStatsDRecorder>,
}

impl<'a, R> Model for Metrics<'a, R> {
    ghost use Rattle.std.specs.Prelude.{option_copied};
    ghost use Rattle.service_metrics.specs.Heard.{MetricsText};

    ghost Value = { MetricsText };

    ghost view = { λ metrics. record {
      pages = option_copied metrics.pages;
      flushes = option_copied metrics.flushes;
    } };
}

/// What is said of a metric where it is registered; nothing here reads it.
fn about() -> Metadata<'static> {
    Metadata::new("service", Level::Info, None)
}

/// The key of a name with labels.
fn key_of(
    alloc: Global,
    name: &'static str,
    labels: &[(&'static str, &'static str)],
) -> Result<Key, Memory> {
    Ok(Key::from_parts(KeyName::from_const_str(name), labels.into_labels(alloc)?))
}

impl<'a, R: Wait> Metrics<'a, R> {
    /// Metrics that these recorders hear: one that is scraped, and one that is flushed. Either may be left out.
    pub fn new(
        rt: &'a R,
        alloc: Global,
        pages: Option<&'a PrometheusRecorder>,
        flushes: Option<&'a DogStatsDRecorder>,
    ) -> Metrics<'a, R>
        ensures { result ≡ record {
          pages = option_copied pages.entry;
          flushes = option_copied flushes.entry;
        } }
    {
        Metrics {
            rt,
            alloc,
            pages,
            flushes,
        }
    }

    /// The runtime that it has.
    pub fn runtime(&self) -> &'a R {
        self.rt
    }

    /// The counter of a name with labels. Where memory is refused one recorder may have it registered.
    pub fn counter(
        &self,
        name: &'static str,
        labels: &[(&'static str, &'static str)],
    ) -> Result<ServiceCounter<'a, R>, Memory>
        ensures { IfOk result (IsNewCounter self.now) }
    {
        self.counter_of(&key_of(self.alloc, name, labels)?)
    }

    /// The counter of a key, as `counter`.
    pub fn counter_of(&self, key: &Key) -> Result<ServiceCounter<'a, R>, Memory>
        ensures { IfOk result (IsNewCounter self.now) }
    {
        let paged = self.paged_counter(key)?;
        let flushed = self.flushed_counter(key)?;
        Ok(ServiceCounter::of(self.rt, paged, flushed))
    }

    /// What the exporter of pages has of it, where there is one.
    fn paged_counter(
        &self,
        key: &Key,
    ) -> Result<Option<CounterHandle<PromCounter, CellPass>>, Memory>
        ensures { IfOk result (IsPartOf IsUncalledCounter self.now.pages) }
    {
        let Some(recorder) = self.pages else {
            return Ok(None);
        };
        let lent = recorder.register_counter(self.rt, self.alloc, key, &about())?;
        Ok(Some(lent.into_handle()))
    }

    /// What the exporter of flushes has of it, where there is one.
    fn flushed_counter(&self, key: &Key) -> Result<Option<HeldCounter>, Memory>
        ensures { IfOk result (IsPartOf (λ lease. lease.knows.mine ≡ []) self.now.flushes) }
    {
        let Some(recorder) = self.flushes else {
            return Ok(None);
        };
        let lent = recorder.register_counter(self.rt, self.alloc, key, &about())?;
        Ok(Some(HeldCounter::new(lent)))
    }

    /// The gauge of a name with labels. Where memory is refused one recorder may have it registered.
    pub fn gauge(
        &self,
        name: &'static str,
        labels: &[(&'static str, &'static str)],
    ) -> Result<ServiceGauge<'a, R>, Memory>
        ensures { IfOk result (IsNewGauge self.now) }
    {
        self.gauge_of(&key_of(self.alloc, name, labels)?)
    }

    /// The gauge of a key, as `gauge`.
    pub fn gauge_of(&self, key: &Key) -> Result<ServiceGauge<'a, R>, Memory>
        ensures { IfOk result (IsNewGauge self.now) }
    {
        let paged = self.paged_gauge(key)?;
        let flushed = self.flushed_gauge(key)?;
        Ok(ServiceGauge::of(self.rt, paged, flushed))
    }

    /// What the exporter of pages has of it, where there is one.
    fn paged_gauge(&self, key: &Key) -> Result<Option<GaugeHandle<PromGauge, CellPass>>, Memory>
        ensures { IfOk result (IsPartOf IsUncalledGauge self.now.pages) }
    {
        let Some(recorder) = self.pages else {
            return Ok(None);
        };
        let lent = recorder.register_gauge(self.rt, self.alloc, key, &about())?;
        Ok(Some(lent.into_handle()))
    }

    /// What the exporter of flushes has of it, where there is one.
    fn flushed_gauge(&self, key: &Key) -> Result<Option<HeldGauge>, Memory>
        ensures { IfOk result (IsPartOf (λ lease. lease.knows.mine ≡ []) self.now.flushes) }
    {
        let Some(recorder) = self.flushes else {
            return Ok(None);
        };
        let lent = recorder.register_gauge(self.rt, self.alloc, key, &about())?;
        Ok(Some(HeldGauge::new(lent)))
    }

    /// The histogram of a name with labels. Where memory is refused one recorder may have it registered.
    pub fn histogram(
        &self,
        name: &'static str,
        labels: &[(&'static str, &'static str)],
    ) -> Result<ServiceHistogram<'a, R>, Memory>
        ensures { IfOk result (IsNewHistogram self.now) }
    {
        self.histogram_of(&key_of(self.alloc, name, labels)?)
    }

    /// The histogram of a key, as `histogram`.
    pub fn histogram_of(&self, key: &Key) -> Result<ServiceHistogram<'a, R>, Memory>
        ensures { IfOk result (IsNewHistogram self.now) }
    {
        let paged = self.paged_histogram(key)?;
        let flushed = self.flushed_histogram(key)?;
        Ok(ServiceHistogram::of(self.rt, self.alloc, paged, flushed))
    }

    /// What the exporter of pages has of it, where there is one.
    fn paged_histogram(
        &self,
        key: &Key,
    ) -> Result<Option<HistogramHandle<PromHistogram, SamplePass<(Fixed, u64)>>>, Memory>
        ensures { IfOk result (IsPartOf IsUncalledHistogram self.now.pages) }
    {
        let Some(recorder) = self.pages else {
            return Ok(None);
        };
        let lent = recorder.register_histogram(self.rt, self.alloc, key, &about())?;
        Ok(Some(lent.into_handle()))
    }

    /// What the exporter of flushes has of it, where there is one.
    fn flushed_histogram(&self, key: &Key) -> Result<Option<HeldHistogram>, Memory>
        ensures { IfOk result (IsPartOf (λ lease. lease.knows.mine ≡ []) self.now.flushes) }
    {
        let Some(recorder) = self.flushes else {
            return Ok(None);
        };
        let lent = recorder.register_histogram(self.rt, self.alloc, key, &about())?;
        Ok(Some(HeldHistogram::new(lent)))
    }

    /// Describes the counters of a name, for pages; lines that are flushed carry no descriptions.
    pub fn describe_counter(
        &self,
        name: &'static str,
        unit: Option<Unit>,
        description: &'static str,
    ) -> Result<(), Memory> {
        let Some(recorder) = self.pages else {
            return Ok(());
        };
        let name = KeyName::from_const_str(name);
        let description = SharedString::const_str(description);
        recorder.describe_counter(self.rt, self.alloc, name, unit, description)
    }

    /// Describes the gauges of a name, for pages; lines that are flushed carry no descriptions.
    pub fn describe_gauge(
        &self,
        name: &'static str,
        unit: Option<Unit>,
        description: &'static str,
    ) -> Result<(), Memory> {
        let Some(recorder) = self.pages else {
            return Ok(());
        };
        let name = KeyName::from_const_str(name);
        let description = SharedString::const_str(description);
        recorder.describe_gauge(self.rt, self.alloc, name, unit, description)
    }

    /// Describes the histograms of a name, for pages; lines that are flushed carry no descriptions.
    pub fn describe_histogram(
        &self,
        name: &'static str,
        unit: Option<Unit>,
        description: &'static str,
    ) -> Result<(), Memory> {
        let Some(recorder) = self.pages else {
            return Ok(());
        };
        let name = KeyName::from_const_str(name);
        let description = SharedString::const_str(description);
        recorder.describe_histogram(self.rt, self.alloc, name, unit, description)
    }
}
