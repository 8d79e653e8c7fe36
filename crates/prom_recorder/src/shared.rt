//! What a recorder and its handles share.

ghost use Rattle.std.specs.Prelude.{◌≡◌, IfOk};
ghost use Rattle.std.specs.Arc.{arc_value};
ghost use Rattle.legal_history.specs.History.{lender};
ghost use Rattle.shared_turns.specs.Passes.{view_of};
ghost use Rattle.shared_turns.specs.Turns.{opening};
ghost use Rattle.shared_recorder.specs.declared.entries.RecorderEntry.TheVariants.{Built};
ghost use Rattle.shared_recorder.specs.Recorder.{IsPass};

use crate::own_pass::OwnPass;
use metrics_core::Memory;
use prom_exporter::PrometheusState;
use shared_recorder::{SharedPass, SharedRecorder};
use std::alloc::Global;
use std::sync::{Arc, Mutex, MutexGuard, Wait};

/// A recorder that takes turns, and a pass of it behind a lock, for calls whose caller holds none.
#[derive(Drop)]
pub(crate) struct Shared {
    pub(crate) recorder: Arc<SharedRecorder>,
    own: Mutex<OwnPass>,
}

impl Shared {
    /// Shares a state, and gives the root pass, of which one pass was lent. Where memory is refused the state is let go without an end.
    pub(crate) fn new(
        alloc: Global,
        state: PrometheusState,
    ) -> Result<(Arc<Shared>, SharedPass), Memory>
        ensures { IfOk result (λ made. IsPass (arc_value (arc_value made.0).recorder) made.1
            × (view_of made.1 ≡ lender (opening (Built state)))) }
    {
        let (recorder, mut root) = SharedRecorder::new(alloc, state)?;
        let pass = recorder.split(&mut root);
        let recorder = Arc::new(alloc, recorder)?;
        let own = OwnPass::of(Arc::try_clone(&recorder)?, pass);
        let shared = Shared {
            recorder,
            own: Mutex::new(own),
        };
        Ok((Arc::new(alloc, shared)?, root))
    }

    /// Takes the lock of the pass. It waits for those that have it.
    pub(crate) fn lock<R: Wait>(&self, rt: &R) -> MutexGuard<'_, OwnPass> {
        self.own.lock(rt)
    }
}

/// One more owner of the same recorder.
pub(crate) fn same_recorder(shared: &Arc<Shared>) -> Result<Arc<Shared>, Memory>
    ensures { IfOk result (λ copy. arc_value copy ≡ arc_value shared.now) }
{
    Ok(Arc::try_clone(shared)?)
}

/// Gives up an owner of a recorder. The last one to go ends the recorder, and the state with it.
pub(crate) fn end_shared<R: Wait>(rt: &R, shared: Arc<Shared>) {
    if let Some(last) = Arc::into_inner(shared) {
        let Shared { recorder, own } = last;
        drop(recorder);
        own.into_inner().end(rt);
    }
}
