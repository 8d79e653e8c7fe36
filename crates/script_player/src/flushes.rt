//! The flushes of a play: the exporter that they are of, what they go through, and what came of them so far.

ghost use Rattle.std.specs.Prelude.{◌≡◌, ◌≤◌, ◌+◌, List, [], ◌∷◌, IfOk, Some, option_map, string_bytes};
ghost use Rattle.metrics_core.specs.Numbers.{in_64_bits};
ghost use Rattle.prom_format.specs.LabelSets.{labels_of};
ghost use Rattle.dsd_addresses.specs.Remotes.{RemoteText, remote_text};
ghost use Rattle.dsd_exporter.specs.Exporter.{no_cells};
ghost use Rattle.dsd_exporter.specs.Resting.{AllRest};
ghost use Rattle.dsd_exporter.specs.State.{FlushItem};
ghost use Rattle.drive_script.specs.Script.{SettingsText};
ghost use Rattle.drive_script.specs.Texts.{settings_of};
ghost use Rattle.script_player.specs.Faults.{AreAllowed};
ghost use Rattle.script_player.specs.Flushes.{dogstatsd_settings, is_stream, payload_limit};
ghost use Rattle.script_player.specs.Sent.{Delivers, IsReady, IsWritten, none_sent};
ghost use Rattle.script_player.specs.Rounds.{FlushesOn, IsFlushed};

use drive_script::Settings;
use dsd_addresses::RemoteAddr;
use dsd_exporter::{
    AggregationMode, FlushReport, FlushState, Link, State, StateConfiguration, TelemetryUpdate,
    send_written, write_flush,
};
use dsd_writer::PayloadWriter;
use hash_starts::HashStart;
use metrics_core::{Label, Lcg, Memory, SharedString};
use std::alloc::Global;
use std::sync::Wait;

/// What flushes go through, and what came of them so far.
#[derive(Drop)]
pub struct Flushes {
    /// Which counters are idle.
    pub marks: FlushState,
    /// What makes payloads of lines. It has no lines between flushes.
    pub writer: PayloadWriter,
    /// What flushes add up to for the exporter's own counters, which a script doesn't show.
    update: TelemetryUpdate,
    /// The words that a sample of values would be drawn by. None is drawn.
    words: Lcg,
    /// What was sent so far, what wasn't, and what was left out, each modulo 2^64.
    pub report: FlushReport,
}

impl Flushes {
    /// What flushes to this address go through before the first one. None of the settings is refused. The texts of the tags are moved out
    /// of the settings.
    pub(crate) fn new(
        alloc: Global,
        settings: &Settings,
        tags: Vec<(String, String)>,
        to: &RemoteAddr,
    ) -> Result<Flushes, Memory>
        requires allowed { AreAllowed (remote_text to.now) (settings_of settings.now) }
        ensures limit { IfOk result
            (λ flushes. flushes.writer.limit ≡ payload_limit (settings_of settings.now)
            (remote_text to.now)) }
        ensures on_stream { IfOk result (λ flushes. flushes.writer.on_stream
            ≡ is_stream (remote_text to.now)) }
        ensures tags { IfOk result (λ flushes. flushes.writer.global_tags ≡ labels_of tags.items) }
        ensures lines { IfOk result (λ flushes. flushes.writer.lines ≡ []) }
        ensures marks { IfOk result (λ flushes. flushes.marks ≡ []) }
        ensures report { IfOk result (λ flushes. flushes.report ≡ none_sent) }
    {
        let limit = match settings.dsd_limit {
            Some(limit) => limit,
            None => to.default_max_payload_len(),
        };
        let writer = PayloadWriter::new(alloc, limit, is_on_stream(to));
        Ok(Flushes {
            marks: FlushState::new(alloc),
            writer: writer.with_global_labels(labels_from(alloc, tags)?),
            update: TelemetryUpdate::default(),
            words: Lcg::new(0),
            report: FlushReport {
                sent: 0,
                unsent: 0,
                dropped: 0,
            },
        })
    }

    /// Flushes an exporter at a moment into the writer, and answers how many points were left out, modulo 2^64.
    pub(crate) fn write<R: Wait>(
        &mut self,
        rt: &R,
        alloc: Global,
        exporter: &mut State,
        moment: u64,
    ) -> Result<u64, Memory>
        requires rest { AllRest exporter.old }
        ensures rests { FlushesOn exporter.old exporter.new self.old.writer self.new.writer
            self.old.report self.new.report }
        ensures flushed { IfOk result
            (IsFlushed moment exporter.old exporter.new self.old.marks self.new.marks
            self.old.writer self.new.writer) }
    {
        write_flush(
            rt,
            alloc,
            exporter,
            &mut self.marks,
            &mut self.writer,
            &mut self.update,
            moment,
            &mut self.words,
        )
    }

    /// Hands the payloads of a flush that was written to a link, each once, in order. So many points of it were left out.
    pub(crate) fn hand_out<L: Link>(&mut self, dropped: u64, link: &mut L)
        ensures sent { (settings : SettingsText) (to : RemoteText) (items : List FlushItem)
            → IsWritten settings to items self.old.writer dropped
            → L.aimed link.old ≡ Some to → Delivers settings to (items ∷ [])
            (record { sent = L.sent link.old; faults = L.faults link.old })
            (record { sent = L.sent link.new; faults = L.faults link.new })
            self.old.report self.new.report }
        ensures ready { (settings : SettingsText) (to : RemoteText) (items : List FlushItem)
            → IsWritten settings to items self.old.writer dropped
            → IsReady settings to self.new.writer }
        ensures marks { self.new.marks ≡ self.old.marks }
        ensures aimed { L.aimed link.new ≡ L.aimed link.old }
        ensures never_falls { L.faults link.old ≤ L.faults link.new }
    {
        let sent = send_written(&mut self.writer, &mut self.update, dropped, link);
        self.report = both(self.report, sent);
    }
}

/// The counts of two reports together.
fn both(before: FlushReport, more: FlushReport) -> FlushReport
    ensures sent { result.sent ≡ in_64_bits (before.sent + more.sent) }
    ensures unsent { result.unsent ≡ in_64_bits (before.unsent + more.unsent) }
    ensures dropped { result.dropped ≡ in_64_bits (before.dropped + more.dropped) }
{
    FlushReport {
        sent: before.sent.wrapping_add(more.sent),
        unsent: before.unsent.wrapping_add(more.unsent),
        dropped: before.dropped.wrapping_add(more.dropped),
    }
}

/// The exporter whose series a script flushes, before its first round.
pub(crate) fn lines_exporter(
    alloc: Global,
    start: HashStart,
    settings: &Settings,
    prefix: Option<String>,
) -> Result<State, Memory>
    ensures settings { IfOk result (λ exporter. exporter.settings
        ≡ record (dogstatsd_settings (settings_of settings.now)) {
          name_prefix = option_map
              string_bytes prefix;
        }) }
    ensures series { IfOk result (λ exporter. exporter.series ≡ no_cells) }
{
    let agg_mode = if settings.dsd_aggressive {
        AggregationMode::Aggressive
    } else {
        AggregationMode::Conservative
    };
    let configuration = StateConfiguration {
        agg_mode,
        telemetry: false,
        histogram_sampling: false,
        histogram_reservoir_size: 0,
        histograms_as_distributions: !settings.dsd_histograms,
        global_prefix: prefix,
    };
    State::starting_from(alloc, start, configuration)
}

/// Whether payloads to an address go over a stream, each led by its length.
fn is_on_stream(to: &RemoteAddr) -> bool
    ensures { result ≡ is_stream (remote_text to.now) }
{
    matches!(to, RemoteAddr::Unix(_))
}

/// Labels of these texts, which they keep.
fn labels_from(alloc: Global, texts: Vec<(String, String)>) -> Result<Vec<Label>, Memory>
    ensures { IfOk result (λ labels. labels.items ≡ labels_of texts.items) }
{
    let mut labels = Vec::with_capacity(alloc, texts.len())?;
    for (key, value) in texts {
        labels.push(Label::new(
            SharedString::from_owned(key),
            SharedString::from_owned(value),
        ))?;
    }
    Ok(labels)
}
