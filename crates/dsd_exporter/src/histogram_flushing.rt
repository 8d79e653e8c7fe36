//! A flush of histograms: what waits in each queue is drained, written and counted, series by series.

ghost use Rattle.std.specs.Prelude.{◌≡◌, ◌<◌, ◌++◌, ℕ, List, ◌∷◌, [], length, OnOk, OnErr};
ghost use Rattle.std.specs.Option.{option_copied};
ghost use Rattle.sample_queue.specs.Queues.{FoundEmpty};
ghost use Rattle.dsd_writer.specs.Lines.{spelled_values};
ghost use Rattle.dsd_writer.specs.Writers.{Writes, item_of, sampled};
ghost use Rattle.dsd_exporter.specs.State.{line_letter};
ghost use Rattle.dsd_exporter.specs.Exporter.{settings_of};
ghost use Rattle.dsd_exporter.specs.Samples.{samples_in};
ghost use Rattle.dsd_exporter.specs.Updates.{rate_in};
ghost use Rattle.metrics_core.specs.Words.{Draws};
ghost use Rattle.metrics_core.specs.declared.numbers.Fixed.{Fixed as FixedOf};
ghost use Rattle.dsd_exporter.specs.Flushing.{rate_of, samples_item, ChangesAt, Drains, MaybeDrained, Sends, SendsTaken, DrawsFor, SendsSamples, FlushesHistogram, HistogramsFlushed};

use crate::configuration::StateConfiguration;
use crate::queued::QueuedSamples;
use crate::state::State;
use crate::update::TelemetryUpdate;
use dsd_writer::{PayloadWriter, WriteResult};
use metrics_core::{Fixed, Key, Memory, Words};
use std::alloc::Global;
use std::sync::Wait;

/// Writes the values of a histogram, as a distribution or as a histogram.
fn write_values(
    distributions: bool,
    key: &Key,
    values: &[Fixed],
    rate: Option<Fixed>,
    prefix: Option<&str>,
    writer: &mut PayloadWriter,
) -> Result<WriteResult, Memory>
    ensures { let item = sampled rate
        (item_of (line_letter distributions)
        (option_copied prefix.entry) key.now writer.old.global_tags) in
        Writes result writer.old writer.new item (spelled_values values.now) }
{
    if distributions {
        writer.write_distribution(key, values, rate, prefix)
    } else {
        writer.write_histogram(key, values, rate, prefix)
    }
}

/// Writes the values of a histogram, and counts them.
fn send_values(
    distributions: bool,
    key: &Key,
    values: &[Fixed],
    rate: Option<Fixed>,
    prefix: Option<&str>,
    writer: &mut PayloadWriter,
    telemetry: &mut TelemetryUpdate,
) -> Result<(), Memory>
    requires { 0 < rate_in (rate_of rate) }
    ensures sent { OnOk result ((updates : ℕ)
        → Sends (samples_item distributions
        (option_copied prefix.entry) key.now writer.old.global_tags rate values.now updates ∷ [])
        writer.old writer.new telemetry.old telemetry.new) }
    ensures refused { OnErr result (Sends [] writer.old writer.new telemetry.old telemetry.new) }
{
    let written = write_values(distributions, key, values, rate, prefix, writer)?;
    let left_out = written.points_dropped();
    let kept = (values.len() as u64).saturating_sub(left_out);
    telemetry.count_samples(kept, rate, left_out);
    Ok(())
}

impl State {
    /// Drains the queue of the histogram at a place.
    fn drain_histogram<R: Wait>(&mut self, rt: &R, place: usize) -> Result<(), Memory>
        requires { place < length self.old.series.histograms }
        ensures drains { ChangesAt place Drains self.old.series.histograms
            self.new.series.histograms }
        ensures empty { OnOk result (ChangesAt place
            (λ c d. Drains c d × FoundEmpty d.root) self.old.series.histograms
            self.new.series.histograms) }
        ensures others { self.new ≡ record self.old
            { series = record self.old.series { histograms = self.new.series.histograms } } }
    {
        self.series.histogram_at(place).drain(rt)
    }

    /// Lets the samples go that were taken out of the histogram at a place.
    fn clear_histogram(&mut self, place: usize)
        requires { place < length self.old.series.histograms }
        ensures cleared { ChangesAt place
            (λ c d. d ≡ record c { taken = [] }) self.old.series.histograms
            self.new.series.histograms }
        ensures others { self.new ≡ record self.old
            { series = record self.old.series { histograms = self.new.series.histograms } } }
    {
        self.series.histogram_at(place).clear();
    }

    /// Sends the samples that were taken out of the histogram at a place, if there are any.
    fn send_histogram<W: Words>(
        &self,
        alloc: Global,
        place: usize,
        writer: &mut PayloadWriter,
        telemetry: &mut TelemetryUpdate,
        words: &mut W,
    ) -> Result<(), Memory>
        requires { place < length self.now.series.histograms }
        ensures sent { OnOk result (SendsTaken self.now.settings place self.now.series.histograms
            writer.old writer.new telemetry.old telemetry.new (W.to_come words.old)
            (W.to_come words.new)) }
        ensures refused { OnErr result (Sends [] writer.old writer.new telemetry.old telemetry.new) }
        ensures drawn { (drawn : List ℕ) × Draws (W.to_come words.old) drawn (W.to_come words.new) }
    {
        let series = self.series.histograms();
        let Some(key) = series.key(place) else {
            unreachable!()
        };
        let Some(histogram) = series.cell(place) else {
            unreachable!()
        };
        self.configuration
            .send_samples(alloc, key, histogram, writer, telemetry, words)
    }

    /// Flushes the histogram at a place. Where memory is refused, entries may have gone from its queue to those that were taken
    /// out, which come first at the next flush.
    fn flush_histogram<R: Wait, W: Words>(
        &mut self,
        rt: &R,
        alloc: Global,
        place: usize,
        writer: &mut PayloadWriter,
        telemetry: &mut TelemetryUpdate,
        words: &mut W,
    ) -> Result<(), Memory>
        requires { place < length self.old.series.histograms }
        ensures flushed { OnOk result (FlushesHistogram self.old.settings place
            self.old.series.histograms self.new.series.histograms
            writer.old writer.new telemetry.old telemetry.new (W.to_come words.old) (W.to_come words.new)) }
        ensures others { self.new ≡ record self.old
            { series = record self.old.series { histograms = self.new.series.histograms } } }
        ensures refused { OnErr result (ChangesAt place Drains self.old.series.histograms
            self.new.series.histograms × Sends [] writer.old writer.new telemetry.old telemetry.new) }
        ensures drawn { (drawn : List ℕ) × Draws (W.to_come words.old) drawn (W.to_come words.new) }
    {
        self.drain_histogram(rt, place)?;
        self.send_histogram(alloc, place, writer, telemetry, words)?;
        self.clear_histogram(place);
        Ok(())
    }

    /// Flushes all histograms, in order. Where memory is refused those before the refused one were flushed.
    pub(crate) fn flush_histograms<R: Wait, W: Words>(
        &mut self,
        rt: &R,
        alloc: Global,
        writer: &mut PayloadWriter,
        telemetry: &mut TelemetryUpdate,
        words: &mut W,
    ) -> Result<(), Memory>
        ensures { (found : List (List FixedOf)) × (drawn : List ℕ) × (others : List ℕ)
            × HistogramsFlushed self.old.settings MaybeDrained found drawn self.old self.new writer.old writer.new telemetry.old telemetry.new
            × Draws (W.to_come words.old) (drawn ++ others) (W.to_come words.new)
            × OnOk result ((others ≡ []) × (length found ≡ length self.old.series.histograms)) }
    {
        for place in 0..self.series.histogram_count() {
            self.flush_histogram(rt, alloc, place, writer, telemetry, words)?;
        }
        Ok(())
    }
}

impl StateConfiguration {
    /// Sends the samples that were taken out of a histogram with this key, if there are any.
    fn send_samples<W: Words>(
        &self,
        alloc: Global,
        key: &Key,
        histogram: &QueuedSamples,
        writer: &mut PayloadWriter,
        telemetry: &mut TelemetryUpdate,
        words: &mut W,
    ) -> Result<(), Memory>
        ensures sent { OnOk result ((drawn : List ℕ)
            × DrawsFor (settings_of self.now) (samples_in histogram.now.taken) drawn
            (W.to_come words.old) (W.to_come words.new)
            × SendsSamples (settings_of self.now) key.now (samples_in histogram.now.taken) drawn writer.old writer.new telemetry.old telemetry.new) }
        ensures refused { OnErr result (Sends [] writer.old writer.new telemetry.old telemetry.new) }
        ensures drawn { (drawn : List ℕ) × Draws (W.to_come words.old) drawn (W.to_come words.new) }
    {
        if !histogram.has_samples() {
            return Ok(());
        }
        let prefix = self.prefix_for(key);
        let distributions = self.histograms_as_distributions;
        if self.histogram_sampling {
            let size = self.histogram_reservoir_size;
            let sample = histogram.sample(alloc, size, words)?;
            let rate = Some(sample.sample_rate());
            send_values(
                distributions,
                key,
                sample.values(),
                rate,
                prefix,
                writer,
                telemetry,
            )
        } else {
            let samples = histogram.samples(alloc)?;
            send_values(
                distributions,
                key,
                samples.as_slice(),
                None,
                prefix,
                writer,
                telemetry,
            )
        }
    }
}
