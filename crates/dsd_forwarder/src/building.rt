//! What a builder makes: a recorder and a forwarder of one state, or the recorder of a whole program and its forwarder.

ghost use Rattle.std.specs.Prelude.{◌≡◌, ◌≤◌, IfOk};
ghost use Rattle.std.specs.Arc.{arc_value};
ghost use Rattle.dsd_exporter.specs.Exporter.{settings_of};
ghost use Rattle.dsd_forwarder.specs.Building.{IsMadeWith};

use crate::configuration::ForwarderConfiguration;
use crate::forwarder::Forwarder;
use crate::held_pass::HeldPass;
use crate::recorder::DogStatsDRecorder;
use dsd_addresses::{BuildError, limit_fault};
use dsd_exporter::{DogStatsDBuilder, StateConfiguration};
use hash_starts::HashStart;
use metrics_core::Memory;
use metrics_facade::{Note, RecorderOnceCell};
use shared_flushes::SharedState;
use std::alloc::Global;
use std::sync::Arc;

/// What makes a recorder and a forwarder of one new state.
pub trait BuildForwarder {
    ghost use Rattle.std.specs.Prelude.{◌≡◌, ◌⊎◌, None, Some, IfOk, IfErr, OnOk, OnErr};
    ghost use Rattle.std.specs.Arc.{arc_value};
    ghost use Rattle.once_cell.specs.Once.{Agrees};
    ghost use Rattle.dsd_addresses.specs.declared.faults.BuildError.TheVariants as causes;
    ghost use Rattle.dsd_exporter.specs.Builders.{BuilderText};
    ghost use Rattle.dsd_forwarder.specs.Building.{IsBuilt, limit_fault_in, refusal_for};
    ghost use Rattle.dsd_forwarder.specs.declared.recorder.DogStatsDRecorder.{DogStatsDRecorder as RecorderOf};

    /// What they are made with.
    ghost settings: { Self → BuilderText };

    /// A recorder and a forwarder of one state. A payload limit that `limit_fault` refuses for the address is refused.
    fn build(self, alloc: Global) -> Result<(DogStatsDRecorder, Forwarder), BuildError>
        ensures built { IfOk result (λ made. IsBuilt (settings self) made.1) }
        ensures one { IfOk result (λ made. arc_value made.0.state ≡ made.1.state) }
        ensures limit { OnOk result (limit_fault_in (settings self) ≡ None) }
        ensures refused { IfErr result (λ fault.
            fault ≡ refusal_for (limit_fault_in (settings self))) };

    /// The forwarder, with the recorder set as that of the whole program. Where one was set before it is refused with
    /// `FailedToInstall`, and the note then knows that one.
    fn install(
        self,
        alloc: Global,
        cell: &RecorderOnceCell<DogStatsDRecorder>,
        note: &mut Note<DogStatsDRecorder>,
    ) -> Result<Forwarder, BuildError>
        requires { note.old.cell ≡ cell.now }
        ensures cell { note.new.cell ≡ note.old.cell }
        ensures built { IfOk result (IsBuilt (settings self)) }
        ensures limit { OnOk result (limit_fault_in (settings self) ≡ None) }
        ensures installed { IfOk result (λ forwarder. (note.old.known ≡ None)
            × ((there : RecorderOf) × (note.new.known ≡ Some there)
            × (arc_value there.state ≡ forwarder.state))) }
        ensures refused { IfErr result (λ fault.
            ((fault ≡ refusal_for (limit_fault_in (settings self))) × (note.new.known ≡ note.old.known))
            ⊎ ((fault ≡ causes.FailedToInstall) × (limit_fault_in (settings self) ≡ None)
            × ((there : RecorderOf) × (note.new.known ≡ Some there) × Agrees note.old.known there))) };
}

/// A recorder and a forwarder of one new state, which the forwarder has the root pass of.
fn build_both(
    alloc: Global,
    start: HashStart,
    configuration: ForwarderConfiguration,
    state_configuration: StateConfiguration,
) -> Result<(DogStatsDRecorder, Forwarder), Memory>
    requires least { 6 ≤ configuration.max_payload_len }
    requires most { configuration.max_payload_len ≤ 4294967295 }
    ensures made { IfOk result (λ made.
        IsMadeWith configuration (settings_of state_configuration) made.1) }
    ensures one { IfOk result (λ made. arc_value made.0.state ≡ made.1.state) }
{
    let counts_own = state_configuration.telemetry;
    let (state, mut pass) = SharedState::new(alloc, start, state_configuration)?;
    let state = Arc::new(alloc, state)?;
    let lent = state.split(&mut pass);
    let recorder = DogStatsDRecorder::of(HeldPass {
        state: Arc::try_clone(&state)?,
        pass: lent,
    })?;
    let own = HeldPass { state, pass };
    let forwarder = Forwarder::new(alloc, configuration, counts_own, own)?;
    Ok((recorder, forwarder))
}

impl BuildForwarder for DogStatsDBuilder {
    ghost settings = { λ builder. builder };

    fn build(self, alloc: Global) -> Result<(DogStatsDRecorder, Forwarder), BuildError> {
        let parts = self.into_parts();
        if let Some(reason) = limit_fault(parts.max_payload_len, &parts.remote_addr) {
            return Err(BuildError::InvalidConfiguration { reason });
        }
        let configuration = ForwarderConfiguration {
            remote_addr: parts.remote_addr,
            max_payload_len: parts.max_payload_len,
            flush_interval: parts.flush_interval,
            write_timeout: parts.write_timeout,
            global_labels: parts.global_labels,
        };
        match build_both(alloc, parts.hash_start, configuration, parts.configuration) {
            Ok(both) => Ok(both),
            Err(Memory) => Err(BuildError::Memory),
        }
    }

    fn install(
        self,
        alloc: Global,
        cell: &RecorderOnceCell<DogStatsDRecorder>,
        note: &mut Note<DogStatsDRecorder>,
    ) -> Result<Forwarder, BuildError> {
        let (recorder, forwarder) = self.build(alloc)?;
        let Ok(recorder) = Box::new(alloc, recorder) else {
            return Err(BuildError::Memory);
        };
        match cell.set(note, recorder) {
            Ok(()) => Ok(forwarder),
            Err(_refused) => Err(BuildError::FailedToInstall),
        }
    }
}
