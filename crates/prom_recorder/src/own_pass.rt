//! The pass of those who hold none.

ghost use Rattle.std.specs.Prelude.{◌≡◌, ◌≤◌, ◌⊎◌, Err, IfErr, IfOk, OnErr, OnOk, string_bytes};
ghost use Rattle.std.specs.Arc.{arc_value};
ghost use Rattle.metrics_core.specs.Outside.{Rose};
ghost use Rattle.shared_recorder.specs.Recorder.{IsPass};
ghost use Rattle.prom_recorder.specs.Handing.{IsHandedCounter, IsHandedGauge, IsHandedHistogram};
ghost use Rattle.prom_recorder.specs.Showing.{Shows, Writes, WritesInPart};

use crate::handing::{hand_out_counter, hand_out_gauge, hand_out_histogram};
use crate::lent::{LentCounter, LentGauge, LentHistogram};
use metrics_core::{Key, KeyName, Memory, MetricKind, SharedString, Sink, Unit};
use prom_exporter::BuildError;
use shared_recorder::{SharedPass, SharedRecorder};
use std::alloc::Global;
use std::sync::{Arc, Wait};

/// A pass of a shared recorder, with that recorder. It stands behind a lock, and makes the calls of those who hold no pass. What stands behind
/// a lock is known by its type alone, so no clause of such a call can say of which recorder it is.
#[derive(Drop)]
pub(crate) struct OwnPass {
    recorder: Arc<SharedRecorder>,
    pass: SharedPass,
    ghost own: { IsPass (arc_value recorder) pass },
}

impl OwnPass {
    /// A pass of this recorder.
    pub(crate) fn of(recorder: Arc<SharedRecorder>, pass: SharedPass) -> OwnPass
        requires { IsPass (arc_value recorder) pass }
    {
        OwnPass { recorder, pass }
    }

    /// Registers a counter, and lends it.
    pub(crate) fn register_counter<R: Wait>(
        &mut self,
        rt: &R,
        alloc: Global,
        key: &Key,
    ) -> Result<LentCounter, Memory>
        ensures { IfOk result IsHandedCounter }
    {
        hand_out_counter(rt, alloc, &self.recorder, &mut self.pass, key)
    }

    /// Registers a gauge, and lends it.
    pub(crate) fn register_gauge<R: Wait>(
        &mut self,
        rt: &R,
        alloc: Global,
        key: &Key,
    ) -> Result<LentGauge, Memory>
        ensures { IfOk result IsHandedGauge }
    {
        hand_out_gauge(rt, alloc, &self.recorder, &mut self.pass, key)
    }

    /// Registers a histogram, and lends it.
    pub(crate) fn register_histogram<R: Wait>(
        &mut self,
        rt: &R,
        alloc: Global,
        key: &Key,
    ) -> Result<LentHistogram, Memory>
        ensures { IfOk result IsHandedHistogram }
    {
        hand_out_histogram(rt, alloc, &self.recorder, &mut self.pass, key)
    }

    /// Describes metrics of a name.
    pub(crate) fn describe<R: Wait>(
        &mut self,
        rt: &R,
        alloc: Global,
        kind: MetricKind,
        name: KeyName,
        unit: Option<Unit>,
        description: SharedString,
    ) -> Result<(), Memory> {
        let pass = &mut self.pass;
        self.recorder
            .describe(rt, alloc, pass, kind, name, unit, description)
    }

    /// Makes a page at a moment, in nanoseconds, and answers its body.
    pub(crate) fn render<R: Wait>(
        &mut self,
        rt: &R,
        alloc: Global,
        moment: u64,
    ) -> Result<String, Memory>
        ensures { IfOk result (λ text. Shows moment (string_bytes text)) }
    {
        self.recorder.render(rt, alloc, &mut self.pass, moment)
    }

    /// Makes a page at a moment, in nanoseconds, and writes its body.
    pub(crate) fn render_to_write<R: Wait, K: Sink>(
        &mut self,
        rt: &R,
        alloc: Global,
        moment: u64,
        sink: &mut K,
    ) -> Result<(), BuildError>
        ensures written { OnOk result (Writes moment (K.written sink.old) (K.written sink.new)) }
        ensures refused { OnErr result (WritesInPart moment (K.written sink.old)
            (K.written sink.new)) }
        ensures errors { IfErr result (λ error. (error ≡ BuildError.WriteFault)
            ⊎ (error ≡ BuildError.Memory)) }
        ensures cause { result ≡ Err BuildError.WriteFault
            → Rose (K.faults sink.old) (K.faults sink.new) }
        ensures never_falls { K.faults sink.old ≤ K.faults sink.new }
    {
        self.recorder
            .render_to_write(rt, alloc, &mut self.pass, moment, sink)
    }

    /// Drains the histograms and publishes what is said of metrics.
    pub(crate) fn run_upkeep<R: Wait>(&mut self, rt: &R, alloc: Global) -> Result<(), Memory> {
        self.recorder.run_upkeep(rt, alloc, &mut self.pass)
    }

    /// Gives the pass up. Where this is the last owner of the recorder, the recorder ends.
    pub(crate) fn end<R: Wait>(self, rt: &R) {
        let OwnPass { recorder, pass } = self;
        if let Some(last) = Arc::into_inner(recorder) {
            last.end(rt, pass);
        }
    }
}
