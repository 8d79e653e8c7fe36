//! Building a recorder, and installing it.

ghost use Rattle.std.specs.Prelude.{◌≡◌};

use crate::{InstallError, PrometheusHandle, PrometheusRecorder};
use metrics_facade::{Note, RecorderOnceCell, set_global_recorder};
use prom_exporter::{BuildError, PrometheusBuilder};
use shared_recorder::SharedPass;
use std::alloc::Global;

/// What a recorder is built from.
pub trait BuildRecorder {
    ghost use Rattle.std.specs.Prelude.{◌≡◌, Err, IfErr, IfOk, None, OnErr, Some};
    ghost use Rattle.legal_history.specs.History.{lender};
    ghost use Rattle.prom_exporter.specs.Exporter.{Exporter};
    ghost use Rattle.prom_exporter.specs.declared.errors.BuildError.TheVariants.{SpanTooLong, Memory};
    ghost use Rattle.shared_turns.specs.Passes.{view_of};
    ghost use Rattle.shared_turns.specs.Turns.{opening};
    ghost use Rattle.shared_recorder.specs.declared.entries.RecorderEntry.TheVariants.{Built};
    ghost use Rattle.shared_recorder.specs.Recorder.{IsPass};
    ghost use Rattle.prom_recorder.specs.declared.errors.InstallError.TheVariants.{Build};
    ghost use Rattle.prom_recorder.specs.Installing.{Refuses};

    /// The settings are refused.
    ghost is_refused: { Self → Type 0 };

    /// The exporter with these settings and no series.
    ghost builds: { Self → Exporter };

    /// A recorder over an exporter with these settings and no series. Its root pass is let go: it is used by the calls that take no pass.
    fn build_recorder(self, alloc: Global) -> Result<PrometheusRecorder, BuildError>
        ensures too_long { is_refused self → result ≡ Err SpanTooLong }
        ensures memory { (is_refused self → ⊥) → OnErr result (result ≡ Err Memory) };

    /// A recorder over an exporter with these settings and no series, with the root pass, which knows of what the recorder was built. One pass was
    /// lent of it, for calls that take none.
    fn build_recorder_seen(
        self,
        alloc: Global,
    ) -> Result<(PrometheusRecorder, SharedPass), BuildError>
        ensures built { IfOk result (λ made. IsPass made.0 made.1
            × (view_of made.1 ≡ lender (opening (Built (builds self))))) }
        ensures too_long { is_refused self → result ≡ Err SpanTooLong }
        ensures memory { (is_refused self → ⊥) → OnErr result (result ≡ Err Memory) };

    /// A recorder over an exporter with these settings and no series, which is put into the cell of a program, and a handle of the same state. Where
    /// a recorder is in the cell already the new one is handed back in the error.
    fn install_recorder(
        self,
        alloc: Global,
        cell: &RecorderOnceCell<PrometheusRecorder>,
        note: &mut Note<PrometheusRecorder>,
    ) -> Result<PrometheusHandle, InstallError>
        requires { note.old.cell ≡ cell.now }
        ensures cell { note.new.cell ≡ note.old.cell }
        ensures installed { IfOk result (λ handle. (note.new.known ≡ Some handle)
            × (note.old.known ≡ None)) }
        ensures refused { IfErr result (Refuses note.old.known note.new.known) }
        ensures too_long { is_refused self → result ≡ Err (Build SpanTooLong) };
}

impl BuildRecorder for PrometheusBuilder {
    ghost use Rattle.std.specs.Prelude.{[]};
    ghost use Rattle.metric_descriptions.specs.Descriptions.{nothing_described};
    ghost use Rattle.prom_exporter.specs.Builder.{SpanIsTooLong};
    ghost use Rattle.prom_exporter.specs.Exporter.{no_cells};

    ghost is_refused = { λ builder. SpanIsTooLong builder.settings };

    ghost builds = { λ builder. record { settings = builder.settings; series = no_cells; said = nothing_described; redirected = [] } };

    fn build_recorder(self, alloc: Global) -> Result<PrometheusRecorder, BuildError> {
        let (recorder, _root) = self.build_recorder_seen(alloc)?;
        Ok(recorder)
    }

    fn build_recorder_seen(
        self,
        alloc: Global,
    ) -> Result<(PrometheusRecorder, SharedPass), BuildError> {
        let state = self.build_state(alloc)?;
        Ok(PrometheusRecorder::over(alloc, state)?)
    }

    fn install_recorder(
        self,
        alloc: Global,
        cell: &RecorderOnceCell<PrometheusRecorder>,
        note: &mut Note<PrometheusRecorder>,
    ) -> Result<PrometheusHandle, InstallError> {
        let recorder = self.build_recorder(alloc)?;
        let handle = recorder.handle()?;
        let Ok(recorder) = Box::new(alloc, recorder) else {
            return Err(InstallError::Build(BuildError::Memory));
        };
        set_global_recorder(cell, note, recorder)?;
        Ok(handle)
    }
}
