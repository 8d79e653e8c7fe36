//! The upkeep of a recorder.

ghost use Rattle.std.specs.Prelude.{◌≡◌};
ghost use Rattle.shared_recorder.specs.Recorder.{IsPass};

use metrics_core::Memory;
use prom_recorder::{PrometheusHandle, PrometheusRecorder};
use service_loops::Job;
use shared_recorder::SharedPass;
use std::alloc::Global;
use std::net::{Net, TcpListener, TcpStream};
use std::sync::Wait;
use std::time::Clock;

/// What drains the queues of a recorder and publishes what is said of metrics, an entry of its history each time. Where memory is
/// refused it is tried again the next time.
#[derive(Drop)]
pub struct RecorderUpkeep {
    alloc: Global,
    handle: PrometheusHandle,
    pass: SharedPass,
    ghost own: { IsPass handle pass },
}

impl RecorderUpkeep {
    /// The upkeep of a recorder, by this pass.
    pub(crate) fn new(
        alloc: Global,
        recorder: &PrometheusRecorder,
        pass: SharedPass,
    ) -> Result<RecorderUpkeep, Memory>
        requires { IsPass recorder.now pass }
    {
        let handle = recorder.handle()?;
        Ok(RecorderUpkeep {
            alloc,
            handle,
            pass,
        })
    }
}

impl Job for RecorderUpkeep {
    ghost use Rattle.shared_turns.specs.Passes.{view_of as the_view};
    ghost use Rattle.service_exporters.specs.Histories.{KeptUp};

    ghost does = { λ old new. KeptUp (the_view old.pass) (the_view new.pass) };

    fn run<R: Wait + Clock + Net<Listener = TcpListener, Stream = TcpStream>>(&mut self, rt: &R) {
        let _ = self
            .handle
            .shared()
            .run_upkeep(rt, self.alloc, &mut self.pass);
    }
}
