//! Two registrations beside each other.

ghost use Rattle.std.specs.Prelude.{◌≡◌, ◌+◌, ◌<◌, ◌^◌, ◌||◌, true, Ok, is_err, IfOk, OnErr};
ghost use Rattle.legal_history.specs.History.{taker};
ghost use Rattle.shared_turns.specs.Passes.{view_of, Waits};
ghost use Rattle.shared_recorder.specs.Recorder.{IsPass};
ghost use Rattle.shared_beside.specs.Beside.{AreRegistered, IsLent, RegistersBoth, RegistersOneAtMost};

use crate::registration::KeyRegistration;
use metrics_core::{Key, Memory, MetricKind, SeriesId};
use shared_recorder::{SharedPass, SharedRecorder};
use std::alloc::Global;
use std::sync::Wait;
use std::thread::Threads;
use thread_jobs::both_beside;

/// Gives two passes back to the root, which has then seen the whole history.
fn take_both(recorder: &SharedRecorder, root: &mut SharedPass, one: SharedPass, other: SharedPass)
    requires pass { IsPass recorder.now root.old }
    requires root { (view_of root.old).number ≡ 0 }
    requires lent { IsLent recorder.now one × IsLent recorder.now other }
    ensures pass { IsPass recorder.now root.new }
    ensures seen { Waits (taker (taker (view_of root.old) (view_of one)) (view_of other))
        (view_of root.new) }
    ensures splits { root.new.splits ≡ root.old.splits }
{
    recorder.join(root, one);
    recorder.join(root, other);
    let _entries = recorder.look(root);
}

/// Both ids, where neither registration was refused.
fn both_ids(
    one: Result<SeriesId, Memory>,
    other: Result<SeriesId, Memory>,
) -> Result<(SeriesId, SeriesId), Memory>
    ensures ok { IfOk result (λ ids. (one ≡ Ok ids.0) × (other ≡ Ok ids.1)) }
    ensures refused { OnErr result ((is_err one || is_err other) ≡ true) }
{
    Ok((one?, other?))
}

/// Registers series of one kind under two keys, each in a thread of its own by a pass that the root lends and takes back, and answers
/// what came of each.
fn register_both<R: Threads + Wait + Sync>(
    rt: &R,
    alloc: Global,
    recorder: &SharedRecorder,
    root: &mut SharedPass,
    kind: MetricKind,
    one: Key,
    other: Key,
) -> (Result<SeriesId, Memory>, Result<SeriesId, Memory>)
    requires pass { IsPass recorder.now root.old }
    requires root { (view_of root.old).number ≡ 0 }
    requires few { root.old.splits + 3 < 2 ^ 64 }
    ensures pass { IsPass recorder.now root.new }
    ensures splits { root.new.splits ≡ root.old.splits + 2 }
    ensures both { RegistersBoth kind one other result.0 result.1 (view_of root.old)
        (view_of root.new) }
{
    let pass = recorder.split(root);
    let one = KeyRegistration {
        alloc,
        pass,
        kind,
        key: one,
    };
    let pass = recorder.split(root);
    let other = KeyRegistration {
        alloc,
        pass,
        kind,
        key: other,
    };
    let (one, other) = both_beside(rt, recorder, one, other);
    take_both(recorder, root, one.pass, other.pass);
    (one.id, other.id)
}

/// Registers series of one kind under two keys, each in a thread of its own by a pass of its own, beside each other and beside all
/// others that use the recorder. Afterwards the root has both passes back and has seen the whole history. Each id is the one that
/// the recorder of one thread gives at the place of its registration. Where no idle timeout is set equal keys have one id,
/// whichever came first. Where memory is refused to one registration the other may stand.
pub fn register_beside<R: Threads + Wait + Sync>(
    rt: &R,
    alloc: Global,
    recorder: &SharedRecorder,
    root: &mut SharedPass,
    kind: MetricKind,
    one: Key,
    other: Key,
) -> Result<(SeriesId, SeriesId), Memory>
    requires pass { IsPass recorder.now root.old }
    requires root { (view_of root.old).number ≡ 0 }
    requires few { root.old.splits + 3 < 2 ^ 64 }
    ensures pass { IsPass recorder.now root.new }
    ensures splits { root.new.splits ≡ root.old.splits + 2 }
    ensures registered { IfOk result (λ ids.
        AreRegistered kind one other ids.0 ids.1 (view_of root.old) (view_of root.new)) }
    ensures refused { OnErr result (RegistersOneAtMost kind one other (view_of root.old)
        (view_of root.new)) }
{
    let (one, other) = register_both(rt, alloc, recorder, root, kind, one, other);
    both_ids(one, other)
}
