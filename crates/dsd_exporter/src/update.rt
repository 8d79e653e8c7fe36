//! What flushes and sends add up to for the exporter's own counters.

ghost use Rattle.std.specs.Prelude.{◌≡◌, ◌↔◌, ◌*◌, ◌/◌, ◌<◌, IsTrue, nat_lt, if◌then◌else◌};
ghost use Rattle.metrics_core.specs.declared.kinds.MetricKind.TheVariants.{Counter, Gauge, Histogram};
ghost use Rattle.metrics_core.specs.Numbers.{one, in_64_bits};
ghost use Rattle.dsd_exporter.specs.Flushing.{with_series, rate_of};
ghost use Rattle.dsd_exporter.specs.Updates.{rate_in, HadUpdates, no_update, with_contexts, with_failed, with_left_out, with_points, with_sent, with_unsent};

use dsd_writer::WriteResult;
use metrics_core::{BILLIONTHS, Fixed, MetricKind};
use std::marker::Model;

/// What flushes and sends add up to: each sum is modulo 2^64. It takes no memory.
#[derive(Clone, Copy, Debug, Default, PartialEq, Eq)]
pub struct TelemetryUpdate {
    counter_contexts: u64,
    gauge_contexts: u64,
    histogram_contexts: u64,
    counter_points: u64,
    gauge_points: u64,
    histogram_points: u64,
    packets_sent: u64,
    bytes_sent: u64,
    packets_unsent: u64,
    bytes_unsent: u64,
    failed_serializations: u64,
    points_left_out: u64,
}

impl Model for TelemetryUpdate {
    ghost use Rattle.dsd_exporter.specs.Updates.{UpdateText};

    ghost Value = { UpdateText };

    ghost view = { λ u. record {
      counter_contexts = u.counter_contexts;
      gauge_contexts = u.gauge_contexts;
      histogram_contexts = u.histogram_contexts;
      counter_points = u.counter_points;
      gauge_points = u.gauge_points;
      histogram_points = u.histogram_points;
      packets_sent = u.packets_sent;
      bytes_sent = u.bytes_sent;
      packets_unsent = u.packets_unsent;
      bytes_unsent = u.bytes_unsent;
      failed_serializations = u.failed_serializations;
      points_left_out = u.points_left_out;
    } };

    ghost inverse = { λ u. record {
      counter_contexts = u.counter_contexts;
      gauge_contexts = u.gauge_contexts;
      histogram_contexts = u.histogram_contexts;
      counter_points = u.counter_points;
      gauge_points = u.gauge_points;
      histogram_points = u.histogram_points;
      packets_sent = u.packets_sent;
      bytes_sent = u.bytes_sent;
      packets_unsent = u.packets_unsent;
      bytes_unsent = u.bytes_unsent;
      failed_serializations = u.failed_serializations;
      points_left_out = u.points_left_out;
    } };
}

impl TelemetryUpdate {
    /// Sets all sums to 0.
    pub fn clear(&mut self)
        ensures { self.new ≡ no_update }
    {
        *self = TelemetryUpdate::none();
    }

    /// All sums 0.
    fn none() -> TelemetryUpdate
        ensures { result ≡ no_update }
    {
        TelemetryUpdate {
            counter_contexts: 0,
            gauge_contexts: 0,
            histogram_contexts: 0,
            counter_points: 0,
            gauge_points: 0,
            histogram_points: 0,
            packets_sent: 0,
            bytes_sent: 0,
            packets_unsent: 0,
            bytes_unsent: 0,
            failed_serializations: 0,
            points_left_out: 0,
        }
    }

    /// Whether one of the three sums of points isn't 0.
    pub fn had_updates(&self) -> bool
        ensures { IsTrue result ↔ HadUpdates self.now }
    {
        self.counter_points > 0 || self.gauge_points > 0 || self.histogram_points > 0
    }

    /// Adds counters that were sent.
    pub fn increment_counter_contexts(&mut self, value: usize)
        ensures { self.new ≡ with_contexts Counter value self.old }
    {
        self.counter_contexts = self.counter_contexts.wrapping_add(value as u64);
    }

    /// Adds gauges that were sent.
    pub fn increment_gauge_contexts(&mut self, value: usize)
        ensures { self.new ≡ with_contexts Gauge value self.old }
    {
        self.gauge_contexts = self.gauge_contexts.wrapping_add(value as u64);
    }

    /// Adds histograms that were sent.
    pub fn increment_histogram_contexts(&mut self, value: usize)
        ensures { self.new ≡ with_contexts Histogram value self.old }
    {
        self.histogram_contexts = self.histogram_contexts.wrapping_add(value as u64);
    }

    /// Adds updates of counters.
    pub fn increment_counter_points(&mut self, value: u64)
        ensures { self.new ≡ with_points Counter value self.old }
    {
        self.counter_points = self.counter_points.wrapping_add(value);
    }

    /// Adds updates of gauges.
    pub fn increment_gauge_points(&mut self, value: u64)
        ensures { self.new ≡ with_points Gauge value self.old }
    {
        self.gauge_points = self.gauge_points.wrapping_add(value);
    }

    /// Adds samples of histograms.
    pub fn increment_histogram_points(&mut self, value: u64)
        ensures { self.new ≡ with_points Histogram value self.old }
    {
        self.histogram_points = self.histogram_points.wrapping_add(value);
    }

    /// Counts a payload that was sent, of so many bytes.
    pub fn track_packet_send_succeeded(&mut self, bytes_len: usize)
        ensures { self.new ≡ with_sent bytes_len self.old }
    {
        self.packets_sent = self.packets_sent.wrapping_add(1);
        self.bytes_sent = self.bytes_sent.wrapping_add(bytes_len as u64);
    }

    /// Counts a payload whose send failed, of so many bytes.
    pub fn track_packet_send_failed(&mut self, bytes_len: usize)
        ensures { self.new ≡ with_unsent bytes_len self.old }
    {
        self.packets_unsent = self.packets_unsent.wrapping_add(1);
        self.bytes_unsent = self.bytes_unsent.wrapping_add(bytes_len as u64);
    }

    /// Counts a series of which points were left out.
    pub fn track_packet_serializer_failed(&mut self)
        ensures { self.new ≡ with_failed self.old }
    {
        self.failed_serializations = self.failed_serializations.wrapping_add(1);
    }

    /// Counts a series that was sent with one number, which tells of so many updates.
    pub(crate) fn count_number(&mut self, kind: MetricKind, updates: u64, written: &WriteResult)
        ensures { self.new ≡ with_series kind
            (if nat_lt 0 written.now.left_out then 0 else updates) written.now.left_out self.old }
    {
        let points = if written.any_failures() { 0 } else { updates };
        self.count_series(kind, points, written.points_dropped());
    }

    /// The counters that were sent, modulo 2^64.
    pub fn counter_contexts(&self) -> u64
        ensures { result ≡ self.now.counter_contexts }
    {
        self.counter_contexts
    }

    /// The gauges that were sent, modulo 2^64.
    pub fn gauge_contexts(&self) -> u64
        ensures { result ≡ self.now.gauge_contexts }
    {
        self.gauge_contexts
    }

    /// The histograms that were sent, modulo 2^64.
    pub fn histogram_contexts(&self) -> u64
        ensures { result ≡ self.now.histogram_contexts }
    {
        self.histogram_contexts
    }

    /// The updates of counters that lines tell of, modulo 2^64.
    pub fn counter_points(&self) -> u64
        ensures { result ≡ self.now.counter_points }
    {
        self.counter_points
    }

    /// The updates of gauges that lines tell of, modulo 2^64.
    pub fn gauge_points(&self) -> u64
        ensures { result ≡ self.now.gauge_points }
    {
        self.gauge_points
    }

    /// The samples of histograms that lines tell of, modulo 2^64.
    pub fn histogram_points(&self) -> u64
        ensures { result ≡ self.now.histogram_points }
    {
        self.histogram_points
    }

    /// The payloads that were sent, modulo 2^64.
    pub fn packets_sent(&self) -> u64
        ensures { result ≡ self.now.packets_sent }
    {
        self.packets_sent
    }

    /// The bytes of the payloads that were sent, modulo 2^64.
    pub fn bytes_sent(&self) -> u64
        ensures { result ≡ self.now.bytes_sent }
    {
        self.bytes_sent
    }

    /// The payloads whose send failed, modulo 2^64.
    pub fn packets_unsent(&self) -> u64
        ensures { result ≡ self.now.packets_unsent }
    {
        self.packets_unsent
    }

    /// The bytes of the payloads whose send failed, modulo 2^64.
    pub fn bytes_unsent(&self) -> u64
        ensures { result ≡ self.now.bytes_unsent }
    {
        self.bytes_unsent
    }

    /// The series of which points were left out, modulo 2^64.
    pub fn failed_serializations(&self) -> u64
        ensures { result ≡ self.now.failed_serializations }
    {
        self.failed_serializations
    }

    /// The points that were left out, modulo 2^64. It is none of the exporter's own counters.
    pub(crate) fn points_left_out(&self) -> u64
        ensures { result ≡ self.now.points_left_out }
    {
        self.points_left_out
    }

    /// Adds points that were left out.
    fn count_left_out(&mut self, points: u64)
        ensures { self.new ≡ with_left_out points self.old }
    {
        self.points_left_out = self.points_left_out.wrapping_add(points);
    }

    /// Counts a series that was sent, which tells of so many points, and of which so many were left out.
    pub(crate) fn count_series(&mut self, kind: MetricKind, points: u64, left_out: u64)
        ensures { self.new ≡ with_series kind points left_out self.old }
    {
        match kind {
            MetricKind::Counter => {
                self.increment_counter_contexts(1);
                self.increment_counter_points(points);
            }
            MetricKind::Gauge => {
                self.increment_gauge_contexts(1);
                self.increment_gauge_points(points);
            }
            MetricKind::Histogram => {
                self.increment_histogram_contexts(1);
                self.increment_histogram_points(points);
            }
        }
        if left_out > 0 {
            self.track_packet_serializer_failed();
        }
        self.count_left_out(left_out);
    }

    /// Counts a histogram that was sent: so many of its values stand on lines with this rate, and so many were left out.
    pub(crate) fn count_samples(&mut self, kept: u64, rate: Option<Fixed>, left_out: u64)
        requires { 0 < rate_in (rate_of rate) }
        ensures { self.new ≡ with_series Histogram
            (kept * one / rate_in (rate_of rate)) left_out self.old }
    {
        self.count_series(MetricKind::Histogram, points_at(kept, rate), left_out);
    }
}

/// How many samples so many values tell of where they have this rate, rounded down and modulo 2^64.
fn points_at(kept: u64, rate: Option<Fixed>) -> u64
    requires { 0 < rate_in (rate_of rate) }
    ensures { result ≡ in_64_bits (kept * one / rate_in (rate_of rate)) }
{
    let rate = match rate {
        Some(rate) => rate.0.unsigned_abs(),
        None => u64::from(BILLIONTHS),
    };
    let points = u128::from(kept) * u128::from(BILLIONTHS) / u128::from(rate);
    (points % (1 << 64)) as u64
}
