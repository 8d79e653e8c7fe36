//! The counters that an exporter keeps of its own work: their names and labels, and what an update adds to each.

ghost use Rattle.std.specs.Prelude.{◌≡◌, IfOk, option_copied};
ghost use Rattle.dsd_forwarder.specs.OwnCounters.{own_name, own_type, own_key, added};

use dsd_exporter::TelemetryUpdate;
use metrics_core::{Key, KeyName, Label, Memory, MetricKind, SharedString};
use std::alloc::Global;

/// One of the counters that an exporter keeps of its own work.
#[derive(Clone, Copy, Debug, PartialEq, Eq)]
pub enum OwnCounter {
    /// The points of all kinds.
    Metrics,
    /// The points of a kind.
    MetricsByType(MetricKind),
    /// The payloads that were sent.
    PacketsSent,
    /// Their bytes.
    BytesSent,
    /// One for each failed send, and one for each series with a point that was left out.
    PacketsDropped,
    /// The payloads whose send failed.
    PacketsDroppedWriter,
    /// Their bytes.
    BytesDropped,
    /// Their bytes as well: nothing else drops bytes.
    BytesDroppedWriter,
    /// The series with a point that was left out, each time one is sent.
    PacketsDroppedSerializer,
    /// The series of all kinds, each time one is sent.
    AggregatedContext,
    /// The series of a kind, each time one is sent.
    AggregatedContextByType(MetricKind),
}

/// All of them, in the order in which they are registered.
pub const OWN_COUNTERS: [OwnCounter; 15] = [
    OwnCounter::Metrics,
    OwnCounter::MetricsByType(MetricKind::Counter),
    OwnCounter::MetricsByType(MetricKind::Gauge),
    OwnCounter::MetricsByType(MetricKind::Histogram),
    OwnCounter::PacketsSent,
    OwnCounter::BytesSent,
    OwnCounter::PacketsDropped,
    OwnCounter::PacketsDroppedWriter,
    OwnCounter::BytesDropped,
    OwnCounter::BytesDroppedWriter,
    OwnCounter::PacketsDroppedSerializer,
    OwnCounter::AggregatedContext,
    OwnCounter::AggregatedContextByType(MetricKind::Counter),
    OwnCounter::AggregatedContextByType(MetricKind::Gauge),
    OwnCounter::AggregatedContextByType(MetricKind::Histogram),
];

impl OwnCounter {
    /// The name of its series.
    pub fn name(self) -> &'static str
        ensures { result.now ≡ own_name self }
    {
        match self {
            OwnCounter::Metrics => "datadog.dogstatsd.client.metrics",
            OwnCounter::MetricsByType(_) => "datadog.dogstatsd.client.metrics_by_type",
            OwnCounter::PacketsSent => "datadog.dogstatsd.client.packets_sent",
            OwnCounter::BytesSent => "datadog.dogstatsd.client.bytes_sent",
            OwnCounter::PacketsDropped => "datadog.dogstatsd.client.packets_dropped",
            OwnCounter::PacketsDroppedWriter => "datadog.dogstatsd.client.packets_dropped_writer",
            OwnCounter::BytesDropped => "datadog.dogstatsd.client.bytes_dropped",
            OwnCounter::BytesDroppedWriter => "datadog.dogstatsd.client.bytes_dropped_writer",
            OwnCounter::PacketsDroppedSerializer => {
                "datadog.dogstatsd.client.packets_dropped_serializer"
            }
            OwnCounter::AggregatedContext => "datadog.dogstatsd.client.aggregated_context",
            OwnCounter::AggregatedContextByType(_) => {
                "datadog.dogstatsd.client.aggregated_context_by_type"
            }
        }
    }

    /// The label `metrics_type` of its series, where it has one.
    pub fn metrics_type(self) -> Option<&'static str>
        ensures { option_copied result ≡ own_type self }
    {
        match self {
            OwnCounter::MetricsByType(kind) | OwnCounter::AggregatedContextByType(kind) => {
                Some(type_text(kind))
            }
            OwnCounter::Metrics
            | OwnCounter::PacketsSent
            | OwnCounter::BytesSent
            | OwnCounter::PacketsDropped
            | OwnCounter::PacketsDroppedWriter
            | OwnCounter::BytesDropped
            | OwnCounter::BytesDroppedWriter
            | OwnCounter::PacketsDroppedSerializer
            | OwnCounter::AggregatedContext => None,
        }
    }

    /// The key of its series, where payloads go by this transport.
    pub fn key(self, alloc: Global, transport: &'static str) -> Result<Key, Memory>
        ensures { IfOk result (λ key. key ≡ own_key transport.now self) }
    {
        let mut labels = vec![in alloc;
            Label::from_static_parts("client", "rust"),
            Label::from_static_parts("client_version", "0.9.8"),
            Label::from_static_parts("client_transport", transport),
        ]?;
        if let Some(metrics_type) = self.metrics_type() {
            labels.push(Label::from_static_parts("metrics_type", metrics_type))?;
        }
        Ok(Key::from_parts(KeyName::from_const_str(self.name()), labels))
    }

    /// What an update adds to it, modulo 2^64.
    pub fn added(self, update: &TelemetryUpdate) -> u64
        ensures { result ≡ added update.now self }
    {
        match self {
            OwnCounter::Metrics => points(update),
            OwnCounter::MetricsByType(kind) => points_of(update, kind),
            OwnCounter::PacketsSent => update.packets_sent(),
            OwnCounter::BytesSent => update.bytes_sent(),
            OwnCounter::PacketsDropped => update
                .packets_unsent()
                .wrapping_add(update.failed_serializations()),
            OwnCounter::PacketsDroppedWriter => update.packets_unsent(),
            OwnCounter::BytesDropped | OwnCounter::BytesDroppedWriter => update.bytes_unsent(),
            OwnCounter::PacketsDroppedSerializer => update.failed_serializations(),
            OwnCounter::AggregatedContext => contexts(update),
            OwnCounter::AggregatedContextByType(kind) => contexts_of(update, kind),
        }
    }
}

ghost use Rattle.dsd_forwarder.specs.OwnCounters.{kind_text, points_of, contexts_of, all_points, all_contexts};

/// How a kind is called in a label.
fn type_text(kind: MetricKind) -> &'static str
    ensures { result.now ≡ kind_text kind }
{
    match kind {
        MetricKind::Counter => "count",
        MetricKind::Gauge => "gauge",
        MetricKind::Histogram => "histogram",
    }
}

/// The points of a kind.
fn points_of(update: &TelemetryUpdate, kind: MetricKind) -> u64
    ensures { result ≡ points_of update.now kind }
{
    match kind {
        MetricKind::Counter => update.counter_points(),
        MetricKind::Gauge => update.gauge_points(),
        MetricKind::Histogram => update.histogram_points(),
    }
}

/// The series of a kind that were sent.
fn contexts_of(update: &TelemetryUpdate, kind: MetricKind) -> u64
    ensures { result ≡ contexts_of update.now kind }
{
    match kind {
        MetricKind::Counter => update.counter_contexts(),
        MetricKind::Gauge => update.gauge_contexts(),
        MetricKind::Histogram => update.histogram_contexts(),
    }
}

/// The points of all kinds, modulo 2^64.
fn points(update: &TelemetryUpdate) -> u64
    ensures { result ≡ all_points update.now }
{
    update
        .counter_points()
        .wrapping_add(update.gauge_points())
        .wrapping_add(update.histogram_points())
}

/// The series of all kinds that were sent, modulo 2^64.
fn contexts(update: &TelemetryUpdate) -> u64
    ensures { result ≡ all_contexts update.now }
{
    update
        .counter_contexts()
        .wrapping_add(update.gauge_contexts())
        .wrapping_add(update.histogram_contexts())
}
