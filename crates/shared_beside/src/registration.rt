//! A registration as the job of one thread.

use metrics_core::{Key, Memory, MetricKind, SeriesId};
use shared_recorder::{SharedPass, SharedRecorder};
use std::alloc::Global;
use std::sync::Wait;
use thread_jobs::Job;

/// A series that a thread is to register at a shared recorder.
#[derive(Drop)]
pub struct KeyRegistration {
    /// What gives the memory.
    pub alloc: Global,
    /// The pass that the thread registers by.
    pub pass: SharedPass,
    /// The kind of the series.
    pub kind: MetricKind,
    /// The key of the series.
    pub key: Key,
}

/// What came of a registration.
#[derive(Drop)]
pub struct Registered {
    /// The pass that it was made by.
    pub pass: SharedPass,
    /// The id of the series, or that memory was refused.
    pub id: Result<SeriesId, Memory>,
}

impl Job for KeyRegistration {
    ghost use Rattle.shared_turns.specs.Passes.{view_of};
    ghost use Rattle.shared_recorder.specs.Recorder.{IsPass, Stays};
    ghost use Rattle.shared_beside.specs.Beside.{Registers};

    type Shared = SharedRecorder;

    type Answer = Registered;

    ghost ready = { λ recorder job. IsPass recorder job.pass };

    ghost gives = { λ recorder job answer. Stays recorder job.pass answer.pass
        × Registers job.kind job.key answer.id (view_of job.pass) (view_of answer.pass) };

    fn run<R: Wait>(self, rt: &R, shared: &SharedRecorder) -> Registered {
        let KeyRegistration {
            alloc,
            mut pass,
            kind,
            key,
        } = self;
        let id = shared.register(rt, alloc, &mut pass, kind, &key);
        Registered { pass, id }
    }
}
