//! The handle by which pages are read.

ghost use Rattle.std.specs.Prelude.{◌≡◌, ◌≤◌, ◌⊎◌, Err, IfErr, IfOk, OnErr, OnOk, string_bytes};
ghost use Rattle.std.specs.Arc.{arc_value};
ghost use Rattle.metrics_core.specs.Outside.{Rose};
ghost use Rattle.prom_recorder.specs.Showing.{Shows, Writes, WritesInPart};

use crate::shared::{Shared, end_shared, same_recorder};
use metrics_core::{Memory, Sink};
use prom_exporter::BuildError;
use shared_recorder::SharedRecorder;
use std::alloc::Global;
use std::fmt;
use std::marker::Model;
use std::sync::{Arc, Wait};

/// A handle of the state that a recorder records into. Contracts see it as the shared recorder that both stand on, so equal ones are of
/// one state. Its calls without a pass take the lock of the pass that is there for them; who holds a pass renders by `shared`.
///
/// Where the last to go of a recorder and its handles is given up by `end`, the state ends and its memory is given back. Where it is
/// let go instead, that memory is kept until the program ends.
#[derive(Drop)]
pub struct PrometheusHandle {
    shared: Arc<Shared>,
}

impl Model for PrometheusHandle {
    ghost use Rattle.std.specs.Arc.{arc_value};
    ghost use Rattle.shared_recorder.specs.declared.recorder.SharedRecorder.{SharedRecorder as RecorderOf};

    ghost Value = { RecorderOf };

    ghost view = { λ handle. arc_value (arc_value handle.shared).recorder };
}

impl PrometheusHandle {
    /// A handle of a recorder.
    pub(crate) fn of(shared: Arc<Shared>) -> PrometheusHandle
        ensures { result ≡ arc_value (arc_value shared).recorder }
    {
        PrometheusHandle { shared }
    }

    /// A handle of the same state.
    pub fn clone(&self) -> Result<PrometheusHandle, Memory>
        ensures same { IfOk result (λ copy. copy ≡ self.now) }
    {
        Ok(PrometheusHandle::of(same_recorder(&self.shared)?))
    }

    /// The shared recorder, by which pages are rendered with a pass: such a page shows all that its pass knows was registered and said.
    pub fn shared(&self) -> &SharedRecorder
        ensures { result.now ≡ self.now }
    {
        &self.shared.recorder
    }

    /// Makes the page step of the state at a moment, in nanoseconds, and answers the page's body (Prometheus text exposition format,
    /// version 0.0.4). After `Memory` no sample is lost, and none counts twice.
    pub fn render<R: Wait>(&self, rt: &R, alloc: Global, moment: u64) -> Result<String, Memory>
        ensures { IfOk result (λ text. Shows moment (string_bytes text)) }
    {
        let mut own = self.shared.lock(rt);
        own.render(rt, alloc, moment)
    }

    /// Makes the page step of the state at a moment, in nanoseconds, and writes the page's body as `render` answers it. After
    /// `WriteFault` a prefix of the body was written.
    pub fn render_to_write<R: Wait, K: Sink>(
        &self,
        rt: &R,
        alloc: Global,
        moment: u64,
        sink: &mut K,
    ) -> Result<(), BuildError>
        ensures written { OnOk result (Writes moment (K.written sink.old) (K.written sink.new)) }
        ensures refused { OnErr result (WritesInPart moment (K.written sink.old)
            (K.written sink.new)) }
        ensures errors { IfErr result (λ error. (error ≡ BuildError.WriteFault)
            ⊎ (error ≡ BuildError.Memory)) }
        ensures cause { result ≡ Err BuildError.WriteFault
            → Rose (K.faults sink.old) (K.faults sink.new) }
        ensures never_falls { K.faults sink.old ≤ K.faults sink.new }
    {
        let mut own = self.shared.lock(rt);
        own.render_to_write(rt, alloc, moment, sink)
    }

    /// Drains the histograms of the state and publishes what is said of metrics, as a page does before it is shown.
    pub fn run_upkeep<R: Wait>(&self, rt: &R, alloc: Global) -> Result<(), Memory> {
        let mut own = self.shared.lock(rt);
        own.run_upkeep(rt, alloc)
    }

    /// Gives the handle up. Where it is the last that shares its state, the state ends.
    pub fn end<R: Wait>(self, rt: &R) {
        let PrometheusHandle { shared } = self;
        end_shared(rt, shared);
    }
}

impl fmt::Debug for PrometheusHandle {
    fn fmt<W: fmt::Write>(&self, f: &mut fmt::Formatter<W>) -> fmt::Result {
        f.debug_struct("PrometheusHandle").finish_non_exhaustive()
    }
}
