//! Registering and rendering with passes of a recorder.

ghost use Rattle.std.specs.Prelude.{◌≡◌, ◌+◌, ◌<◌, ◌^◌};
ghost use Rattle.shared_recorder.specs.Recorder.{IsPass, Stays};
ghost use Rattle.shared_turns.specs.Passes.{view_of};

use metrics_core::Key;
use prom_exporter::PrometheusBuilder;
use prom_recorder::{BuildRecorder, IntoHandle, PrometheusRecorder};
use shared_recorder::SharedPass;
use std::alloc::Global;
use std::sync::Wait;
use std::test::Fail;

/// Adds to the counter `c` with a pass, and answers the number of its series.
fn count<R: Wait>(
    rt: &R,
    alloc: Global,
    recorder: &PrometheusRecorder,
    pass: &mut SharedPass,
    value: u64,
) -> Result<u64, Fail>
    requires { IsPass recorder.now pass.old }
    ensures pass { Stays recorder.now pass.old pass.new }
{
    let key = Key::from_static_name("c");
    let lent = recorder.register_counter_seen(rt, alloc, pass, &key)?;
    let number = lent.id.number;
    lent.into_handle().increment(value);
    Ok(number)
}

/// Counts with two passes, and says whether the page that a third one makes has the counts of both in one series.
fn counts_together<R: Wait>(
    rt: &R,
    alloc: Global,
    recorder: &PrometheusRecorder,
    root: &mut SharedPass,
) -> Result<bool, Fail>
    requires pass { IsPass recorder.now root.old }
    requires root { (view_of root.old).number ≡ 0 }
    requires few { root.old.splits + 3 < 2 ^ 64 }
{
    let shared = recorder.shared();
    let mut one = shared.split(root);
    let mut two = shared.split(root);
    let first = count(rt, alloc, recorder, &mut one, 5)?;
    let second = count(rt, alloc, recorder, &mut two, 2)?;
    shared.join(root, one);
    shared.join(root, two);
    let page = shared.render(rt, alloc, root, 0)?;
    let is_page = page.as_str() == "# TYPE c counter\nc 7\n\n";
    Ok(first == second && is_page && root.calls() == 3)
}

#[test]
fn two_passes_count_in_one_series(rt: HostRuntime) -> Result<(), Fail> {
    let alloc = rt.alloc();
    let (recorder, mut root) = PrometheusBuilder::new(alloc)?.build_recorder_seen(alloc)?;
    let together = counts_together(&rt, alloc, &recorder, &mut root);
    recorder.end(&rt);
    assert!(rt; together?);
    Ok(())
}
