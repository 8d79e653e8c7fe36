//! A flush: what waits in each series is taken, written and counted, series by series.

ghost use Rattle.std.specs.Prelude.{◌≡◌, ◌&&◌, ◌<◌, ℕ, ℤ, ◌^◌, List, ◌∷◌, [], codes, length, decimal, option_map, slice_get, vec_len, vec_capacity, IfNone, IfOk, IfSome, OnOk, OnErr, FitsSigned, true};
ghost use Rattle.std.specs.Bool.{OnTrue, OnFalse};
ghost use Rattle.std.specs.Int.{w64};
ghost use Rattle.metrics_core.specs.Keys.{KeyText};
ghost use Rattle.metrics_core.specs.Numbers.{dogstatsd_number};
ghost use Rattle.dsd_writer.specs.Lines.{ItemText, line_of, lines_of};
ghost use Rattle.dsd_writer.specs.Writers.{HasRoomFor, IsGaugeLine, SameSettings};
ghost use Rattle.flushed_cells.specs.declared.counter_state.CounterState.{CounterState};
ghost use Rattle.flushed_cells.specs.declared.gauge_state.GaugeState.{GaugeState};
ghost use Rattle.dsd_exporter.specs.State.{idle_at};
ghost use Rattle.dsd_exporter.specs.Exporter.{AllHome};
ghost use Rattle.dsd_exporter.specs.Flushing.{Found, Flushes, FlushesAll, IsWhole, HasKeyAt, ChangesAt, PassesGauge, TakesCounter, TakesGauge, WritesOne, Sends, FlushesCounter, FlushesGauge, CountersFlushed, GaugesFlushed, counter_line, gauge_line};

use crate::flush_state::{FlushState, has_mark, replace_mark, reserve_mark};
use crate::state::State;
use crate::update::TelemetryUpdate;
use dsd_writer::{KeptKey, PayloadWriter, WriteResult};
use metrics_core::{Fixed, Memory, MetricKind, Words};
use std::alloc::Global;
use std::sync::Wait;

/// Whether a counter is not sent.
fn is_skipped(is_quiet: bool, was_idle: bool) -> bool
    ensures { result ≡ (is_quiet && was_idle) }
{
    is_quiet && was_idle
}

/// Writes the line of a gauge that is kept, for which there is room.
fn write_line(writer: &mut PayloadWriter, line: &[u8]) -> WriteResult
    requires line { IsGaugeLine line.now }
    requires room { (item : ItemText) × (value : ℤ) × (item.type ≡ codes "g")
        × (line.now ≡ line_of item (dogstatsd_number value ∷ []))
        × HasRoomFor writer.old (lines_of writer.old.limit item (dogstatsd_number value ∷ [])) }
    ensures { (item : ItemText) (value : ℤ) → item.type ≡ codes "g"
        → line.now ≡ line_of item (dogstatsd_number value ∷ [])
        → WritesOne item (dogstatsd_number value) result writer.old writer.new }
{
    let Ok(written) = writer.write_gauge_line(line) else {
        unreachable!()
    };
    written
}

impl State {
    /// Makes room for the line of the counter at a place, whatever its value.
    fn reserve_counter(
        &self,
        place: usize,
        moment: u64,
        writer: &mut PayloadWriter,
    ) -> Result<(), Memory>
        ensures settings { SameSettings writer.old writer.new }
        ensures lines { writer.new.lines ≡ writer.old.lines }
        ensures room { OnOk result ((key : KeyText) → HasKeyAt place key self.now.series.counters
            → (value : ℕ) → value < 2 ^ 64
            → HasRoomFor writer.new (lines_of writer.old.limit (counter_line self.now.settings writer.old.global_tags moment key) (decimal value ∷ []))) }
    {
        let Some(key) = self.series.counters().key(place) else {
            return Ok(());
        };
        let timestamp = self.configuration.timestamp_at(moment);
        writer.reserve_counter(key, timestamp, self.configuration.prefix_for(key))
    }

    /// Takes what waits in the counter at a place: its delta, and its number of updates.
    fn take_counter<R: Wait>(&mut self, rt: &R, place: usize) -> (u64, u64)
        requires { place < length self.old.series.counters }
        ensures taken { (found : CounterState) × (result ≡ (found.delta, found.updates))
            × ChangesAt place (λ c d. TakesCounter c found d) self.old.series.counters self.new.series.counters }
        ensures others { self.new ≡ record self.old
            { series = record self.old.series { counters = self.new.series.counters } } }
    {
        self.series.counter_at(place).take_delta(rt)
    }

    /// Takes what waits in the counter at a place where that is nothing: no delta, and no updates. Elsewhere nothing changes.
    fn take_nothing<R: Wait>(&mut self, rt: &R, place: usize) -> bool
        requires { place < length self.old.series.counters }
        ensures taken { OnTrue result ((found : CounterState) × (found.delta ≡ 0)
            × (found.updates ≡ 0)
            × ChangesAt place (λ c d. TakesCounter c found d) self.old.series.counters self.new.series.counters) }
        ensures none { OnFalse result (self.new ≡ self.old) }
        ensures others { self.new ≡ record self.old
            { series = record self.old.series { counters = self.new.series.counters } } }
    {
        self.series.counter_at(place).take_nothing(rt)
    }

    /// Flushes the counter at a place where it is idle and nothing waits in it: it is not sent, and stays idle. Elsewhere
    /// nothing changes.
    fn pass_over_counter<R: Wait>(&mut self, rt: &R, place: usize, marks: &[bool]) -> bool
        requires { place < length self.old.series.counters }
        ensures taken { OnTrue result ((idle_at marks.now place ≡ true) × (found : CounterState)
            × (found.delta ≡ 0) × (found.updates ≡ 0)
            × ChangesAt place (λ c d. TakesCounter c found d) self.old.series.counters self.new.series.counters) }
        ensures none { OnFalse result (self.new ≡ self.old) }
        ensures others { self.new ≡ record self.old
            { series = record self.old.series { counters = self.new.series.counters } } }
    {
        has_mark(marks, place) && self.take_nothing(rt, place)
    }

    /// Writes the line of the counter at a place, for which there is room.
    fn write_counter(
        &self,
        place: usize,
        delta: u64,
        moment: u64,
        writer: &mut PayloadWriter,
    ) -> WriteResult
        requires here { place < length self.now.series.counters }
        requires room { (key : KeyText) → HasKeyAt place key self.now.series.counters → (value : ℕ)
            → value < 2 ^ 64
            → HasRoomFor writer.old (lines_of writer.old.limit (counter_line self.now.settings writer.old.global_tags moment key) (decimal value ∷ [])) }
        ensures { (key : KeyText) × HasKeyAt place key self.now.series.counters
            × WritesOne (counter_line self.now.settings writer.old.global_tags moment key) (decimal delta) result writer.old writer.new }
    {
        let Some(key) = self.series.counters().key(place) else {
            unreachable!()
        };
        let timestamp = self.configuration.timestamp_at(moment);
        let prefix = self.configuration.prefix_for(key);
        let Ok(written) = writer.write_counter(key, delta, timestamp, prefix) else {
            unreachable!()
        };
        written
    }

    /// Flushes the counter at a place, whatever waits in it: the room of its line is made first. Where memory is refused nothing
    /// changes.
    fn take_and_write_counter<R: Wait>(
        &mut self,
        rt: &R,
        place: usize,
        marks: &mut Vec<bool>,
        writer: &mut PayloadWriter,
        telemetry: &mut TelemetryUpdate,
        moment: u64,
    ) -> Result<(), Memory>
        requires { place < length self.old.series.counters }
        ensures flushed { OnOk result (FlushesCounter self.old.settings moment place
            self.old.series.counters self.new.series.counters
            marks.old.items marks.new.items writer.old writer.new telemetry.old telemetry.new) }
        ensures others { self.new ≡ record self.old
            { series = record self.old.series { counters = self.new.series.counters } } }
        ensures refused { OnErr result ((self.new.series.counters ≡ self.old.series.counters)
            × (marks.new.items ≡ marks.old.items)
            × Sends [] writer.old writer.new telemetry.old telemetry.new) }
    {
        reserve_mark(marks)?;
        self.reserve_counter(place, moment, writer)?;
        let (delta, updates) = self.take_counter(rt, place);
        let is_quiet = updates == 0;
        let was_idle = replace_mark(marks, place, is_quiet);
        if is_skipped(is_quiet, was_idle) {
            return Ok(());
        }
        let written = self.write_counter(place, delta, moment, writer);
        telemetry.count_number(MetricKind::Counter, updates, &written);
        Ok(())
    }

    /// Flushes the counter at a place. Where memory is refused nothing changes.
    fn flush_counter<R: Wait>(
        &mut self,
        rt: &R,
        place: usize,
        marks: &mut Vec<bool>,
        writer: &mut PayloadWriter,
        telemetry: &mut TelemetryUpdate,
        moment: u64,
    ) -> Result<(), Memory>
        requires { place < length self.old.series.counters }
        ensures flushed { OnOk result (FlushesCounter self.old.settings moment place
            self.old.series.counters self.new.series.counters
            marks.old.items marks.new.items writer.old writer.new telemetry.old telemetry.new) }
        ensures others { self.new ≡ record self.old
            { series = record self.old.series { counters = self.new.series.counters } } }
        ensures refused { OnErr result ((self.new.series.counters ≡ self.old.series.counters)
            × (marks.new.items ≡ marks.old.items)
            × Sends [] writer.old writer.new telemetry.old telemetry.new) }
    {
        if self.pass_over_counter(rt, place, marks.as_slice()) {
            return Ok(());
        }
        self.take_and_write_counter(rt, place, marks, writer, telemetry, moment)
    }

    /// Flushes all counters, in order. Where memory is refused those before the refused one were flushed.
    fn flush_counters<R: Wait>(
        &mut self,
        rt: &R,
        marks: &mut Vec<bool>,
        writer: &mut PayloadWriter,
        telemetry: &mut TelemetryUpdate,
        moment: u64,
    ) -> Result<(), Memory>
        ensures { (found : List CounterState)
            × CountersFlushed self.old.settings moment found self.old self.new marks.old.items marks.new.items writer.old writer.new telemetry.old telemetry.new
            × OnOk result (length found ≡ length self.old.series.counters) }
    {
        for place in 0..self.series.counter_count() {
            self.flush_counter(rt, place, marks, writer, telemetry, moment)?;
        }
        Ok(())
    }

    /// The key of the gauge at a place, as its line wants it, if there is one.
    fn gauge_key(&self, place: usize) -> Option<KeptKey<'_>>
        ensures { result ≡ option_map (λ series. series.key)
            (slice_get self.now.series.gauges place) }
    {
        self.gauge_keys.get(place)
    }

    /// Makes room for the line of the gauge at a place, whatever its value.
    fn reserve_gauge(
        &self,
        place: usize,
        moment: u64,
        writer: &mut PayloadWriter,
    ) -> Result<(), Memory>
        ensures settings { SameSettings writer.old writer.new }
        ensures lines { writer.new.lines ≡ writer.old.lines }
        ensures room { OnOk result ((key : KeyText) → HasKeyAt place key self.now.series.gauges
            → (value : ℤ) → FitsSigned w64 value
            → HasRoomFor writer.new (lines_of writer.old.limit (gauge_line self.now.settings writer.old.global_tags moment key) (dogstatsd_number value ∷ []))) }
    {
        let Some(key) = self.gauge_key(place) else {
            return Ok(());
        };
        let timestamp = self.configuration.timestamp_at(moment);
        let prefix = self.configuration.prefix_before(key.name());
        writer.reserve_kept_gauge(&key, timestamp, prefix)
    }

    /// Takes what waits in the gauge at a place: its value, which it keeps, and its number of updates.
    fn take_gauge<R: Wait>(&mut self, rt: &R, place: usize) -> (Fixed, u64)
        requires { place < length self.old.series.gauges }
        ensures taken { (found : GaugeState) × (result ≡ (found.value, found.updates))
            × ChangesAt place (λ c d. TakesGauge c found d) self.old.series.gauges self.new.series.gauges }
        ensures others { self.new ≡ record self.old
            { series = record self.old.series { gauges = self.new.series.gauges } } }
    {
        self.series.gauge_at(place).take_value(rt)
    }

    /// Keeps the line of the gauge at a place with this value, for flushes that find the value again.
    fn keep_line(&mut self, place: usize, value: Fixed, moment: u64, writer: &PayloadWriter)
        ensures { self.new ≡ self.old }
    {
        if self.configuration.timestamp_at(moment).is_none() {
            self.gauge_keys
                .keep(place, value, &self.configuration, writer);
        }
    }

    /// The line of the gauge at a place with this value at a moment, where it is kept.
    fn kept_line(
        &self,
        place: usize,
        value: Fixed,
        moment: u64,
        writer: &PayloadWriter,
    ) -> Option<&[u8]>
        ensures is { IfSome result (λ line. (key : KeyText)
            → HasKeyAt place key self.now.series.gauges
            → line.now ≡ line_of (gauge_line self.now.settings writer.now.global_tags moment key) (dogstatsd_number value.0 ∷ [])) }
        ensures some { IfSome result (λ line. IsGaugeLine line.now) }
    {
        if self.configuration.timestamp_at(moment).is_some() {
            return None;
        }
        self.gauge_keys
            .line(place, value, &self.configuration, writer)
    }

    /// Writes the line of the gauge at a place, for which there is room.
    fn write_gauge(
        &self,
        place: usize,
        value: Fixed,
        moment: u64,
        writer: &mut PayloadWriter,
    ) -> WriteResult
        requires here { place < length self.now.series.gauges }
        requires room { (key : KeyText) → HasKeyAt place key self.now.series.gauges → (value : ℤ)
            → FitsSigned w64 value
            → HasRoomFor writer.old (lines_of writer.old.limit (gauge_line self.now.settings writer.old.global_tags moment key) (dogstatsd_number value ∷ [])) }
        ensures { (key : KeyText) × HasKeyAt place key self.now.series.gauges
            × WritesOne (gauge_line self.now.settings writer.old.global_tags moment key) (dogstatsd_number value.0) result writer.old writer.new }
    {
        if let Some(line) = self.kept_line(place, value, moment, writer) {
            return write_line(writer, line);
        }
        let Some(key) = self.gauge_key(place) else {
            unreachable!()
        };
        let timestamp = self.configuration.timestamp_at(moment);
        let prefix = self.configuration.prefix_before(key.name());
        let Ok(written) = writer.write_kept_gauge(&key, value, timestamp, prefix) else {
            unreachable!()
        };
        written
    }

    /// The value of the gauge at a place, where no pass of it is out and nothing waits in it for sure.
    fn resting_gauge(&self, place: usize) -> Option<Fixed>
        ensures { IfSome result (λ value. (found : GaugeState) × (value ≡ found.value)
            × ChangesAt place (λ c d. PassesGauge c found d) self.now.series.gauges self.now.series.gauges) }
    {
        let gauges = self.series.gauges();
        gauges.cell(place)?.resting_value()
    }

    /// Writes the line of the gauge at a place again, where nothing waits in the gauge for sure and the line is kept. Elsewhere nothing
    /// is written. A refused call leaves the lines as they were.
    fn write_again(
        &self,
        place: usize,
        moment: u64,
        writer: &mut PayloadWriter,
    ) -> Result<Option<WriteResult>, Memory>
        ensures written { IfOk result (λ written.
            IfSome written (λ written. (found : GaugeState) × (key : KeyText)
            × HasKeyAt place key self.now.series.gauges
            × ChangesAt place (λ c d. PassesGauge c found d) self.now.series.gauges self.now.series.gauges
            × WritesOne (gauge_line self.now.settings writer.old.global_tags moment key) (dogstatsd_number found.value.0) written writer.old writer.new)) }
        ensures unwritten { IfOk result (λ written. IfNone written (writer.new ≡ writer.old)) }
        ensures refused { OnErr result (SameSettings writer.old writer.new
            × (writer.new.lines ≡ writer.old.lines)) }
    {
        let Some(value) = self.resting_gauge(place) else {
            return Ok(None);
        };
        let Some(line) = self.kept_line(place, value, moment, writer) else {
            return Ok(None);
        };
        let written = writer.write_gauge_line(line)?;
        Ok(Some(written))
    }

    /// Flushes the gauge at a place, whatever waits in it: the room of its line is made first. Where memory is refused nothing
    /// changes.
    fn take_and_write_gauge<R: Wait>(
        &mut self,
        rt: &R,
        place: usize,
        writer: &mut PayloadWriter,
        telemetry: &mut TelemetryUpdate,
        moment: u64,
    ) -> Result<(), Memory>
        requires { place < length self.old.series.gauges }
        ensures flushed { OnOk result (FlushesGauge self.old.settings moment place
            self.old.series.gauges self.new.series.gauges
            writer.old writer.new telemetry.old telemetry.new) }
        ensures others { self.new ≡ record self.old
            { series = record self.old.series { gauges = self.new.series.gauges } } }
        ensures refused { OnErr result ((self.new.series.gauges ≡ self.old.series.gauges)
            × Sends [] writer.old writer.new telemetry.old telemetry.new) }
    {
        self.reserve_gauge(place, moment, writer)?;
        let (value, updates) = self.take_gauge(rt, place);
        self.keep_line(place, value, moment, writer);
        let written = self.write_gauge(place, value, moment, writer);
        telemetry.count_number(MetricKind::Gauge, updates, &written);
        Ok(())
    }

    /// Flushes the gauge at a place. Where memory is refused nothing changes.
    fn flush_gauge<R: Wait>(
        &mut self,
        rt: &R,
        place: usize,
        writer: &mut PayloadWriter,
        telemetry: &mut TelemetryUpdate,
        moment: u64,
    ) -> Result<(), Memory>
        requires { place < length self.old.series.gauges }
        ensures flushed { OnOk result (FlushesGauge self.old.settings moment place
            self.old.series.gauges self.new.series.gauges
            writer.old writer.new telemetry.old telemetry.new) }
        ensures others { self.new ≡ record self.old
            { series = record self.old.series { gauges = self.new.series.gauges } } }
        ensures refused { OnErr result ((self.new.series.gauges ≡ self.old.series.gauges)
            × Sends [] writer.old writer.new telemetry.old telemetry.new) }
    {
        if let Some(written) = self.write_again(place, moment, writer)? {
            telemetry.count_number(MetricKind::Gauge, 0, &written);
            return Ok(());
        }
        self.take_and_write_gauge(rt, place, writer, telemetry, moment)
    }

    /// Flushes all gauges, in order. Where memory is refused those before the refused one were flushed.
    fn flush_gauges<R: Wait>(
        &mut self,
        rt: &R,
        writer: &mut PayloadWriter,
        telemetry: &mut TelemetryUpdate,
        moment: u64,
    ) -> Result<(), Memory>
        ensures { (found : List GaugeState)
            × GaugesFlushed self.old.settings moment found self.old self.new writer.old writer.new telemetry.old telemetry.new
            × OnOk result (length found ≡ length self.old.series.gauges) }
    {
        for place in 0..self.series.gauge_count() {
            self.flush_gauge(rt, place, writer, telemetry, moment)?;
        }
        Ok(())
    }

    /// Flushes all series: counters, gauges, and histograms, each kind in order of registration. Of each it takes what waits,
    /// writes its lines and counts it. A counter without updates is sent once, and is idle then: it is not sent again until it
    /// has updates. The moment is in nanoseconds; words are drawn where histograms are sampled, as many as their samples need.
    /// Each series is taken at one point of its history, also beside others that make calls. Where memory is refused, the series
    /// before the refused one were flushed, and from that one on they are untouched, but that of a refused histogram entries may
    /// have gone from its queue to those that were taken out of it, which come first at the next flush. What waits is sent by the
    /// next flush.
    pub fn flush<R: Wait, W: Words>(
        &mut self,
        rt: &R,
        alloc: Global,
        flush_state: &mut FlushState,
        writer: &mut PayloadWriter,
        telemetry: &mut TelemetryUpdate,
        moment: u64,
        words: &mut W,
    ) -> Result<(), Memory>
        ensures flushed { (found : Found)
            × Flushes moment found self.old self.new flush_state.old flush_state.new writer.old writer.new telemetry.old telemetry.new (W.to_come words.old) (W.to_come words.new)
            × OnOk result (IsWhole found self.old) }
        ensures home { OnOk result (AllHome self.old
            → FlushesAll moment self.old self.new flush_state.old flush_state.new
            writer.old writer.new telemetry.old telemetry.new (W.to_come words.old) (W.to_come words.new)) }
    {
        self.flush_each(rt, alloc, flush_state, writer, telemetry, moment, words)
    }

    /// Flushes all series, as `flush` does.
    fn flush_each<R: Wait, W: Words>(
        &mut self,
        rt: &R,
        alloc: Global,
        flush_state: &mut FlushState,
        writer: &mut PayloadWriter,
        telemetry: &mut TelemetryUpdate,
        moment: u64,
        words: &mut W,
    ) -> Result<(), Memory>
        ensures { (found : Found)
            × Flushes moment found self.old self.new flush_state.old flush_state.new writer.old writer.new telemetry.old telemetry.new (W.to_come words.old) (W.to_come words.new)
            × OnOk result (IsWhole found self.old) }
    {
        self.flush_counters(rt, &mut flush_state.idle, writer, telemetry, moment)?;
        self.flush_gauges(rt, writer, telemetry, moment)?;
        self.flush_histograms(rt, alloc, writer, telemetry, words)
    }
}
