//! A shared recorder in one thread: two passes, histograms, and a page that removes an idle series.

ghost use Rattle.std.specs.Prelude.{◌≡◌};
ghost use Rattle.shared_turns.specs.Passes.{view_of};
ghost use Rattle.shared_recorder.specs.Recorder.{IsPass};

use metrics_core::{Fixed, Key, KeyName, SharedString};
use metrics_registry::MetricKindMask;
use prom_exporter::PrometheusBuilder;
use shared_recorder::{SharedPass, SharedRecorder};
use std::alloc::Global;
use std::sync::Wait;
use std::test::Fail;

/// Describes the counter `c`.
fn describe<R: Wait>(
    rt: &R,
    alloc: Global,
    recorder: &SharedRecorder,
    pass: &mut SharedPass,
    text: &'static str,
) -> Result<(), Fail>
    requires { IsPass recorder.now pass.old }
    ensures pass { IsPass recorder.now pass.new }
    ensures number { (view_of pass.new).number ≡ (view_of pass.old).number }
{
    let name = KeyName::from_const_str("c");
    let text = SharedString::const_str(text);
    Ok(recorder.describe_counter(rt, alloc, pass, name, None, text)?)
}

/// Registers the counter `c`, and answers its number.
fn register<R: Wait>(
    rt: &R,
    alloc: Global,
    recorder: &SharedRecorder,
    pass: &mut SharedPass,
) -> Result<u64, Fail>
    requires { IsPass recorder.now pass.old }
    ensures pass { IsPass recorder.now pass.new }
    ensures number { (view_of pass.new).number ≡ (view_of pass.old).number }
{
    let key = Key::from_static_name("c");
    let id = recorder.register_counter(rt, alloc, pass, &key)?;
    Ok(id.number)
}

/// Whether the page at a moment is this.
fn shows<R: Wait>(
    rt: &R,
    alloc: Global,
    recorder: &SharedRecorder,
    pass: &mut SharedPass,
    moment: u64,
    page: &str,
) -> Result<bool, Fail>
    requires { IsPass recorder.now pass.old }
    ensures { IsPass recorder.now pass.new }
{
    Ok(recorder.render(rt, alloc, pass, moment)?.as_str() == page)
}

/// Whether two passes that register `c` are given the number 0, their three entries are the root's when they came back, and the
/// first description stays.
fn two_passes_agree<R: Wait>(
    rt: &R,
    alloc: Global,
    recorder: &SharedRecorder,
    root: &mut SharedPass,
    mut one: SharedPass,
    mut two: SharedPass,
) -> Result<bool, Fail>
    requires passes { IsPass recorder.now root.old × IsPass recorder.now one × IsPass recorder.now two }
    requires root { (view_of root.old).number ≡ 0 }
    requires children { ¬ ((view_of one).number ≡ 0) × ¬ ((view_of two).number ≡ 0) }
    ensures { IsPass recorder.now root.new }
{
    let first = register(rt, alloc, recorder, &mut one)?;
    describe(rt, alloc, recorder, &mut one, "one")?;
    let second = register(rt, alloc, recorder, &mut two)?;
    recorder.join(root, one);
    recorder.join(root, two);
    let agree = first == 0 && second == 0 && root.calls() == 3;
    Ok(agree && the_first_description_stays(rt, alloc, recorder, root)?)
}

/// Whether the description that a page showed stays on the next one, where another came in between.
fn the_first_description_stays<R: Wait>(
    rt: &R,
    alloc: Global,
    recorder: &SharedRecorder,
    pass: &mut SharedPass,
) -> Result<bool, Fail>
    requires { IsPass recorder.now pass.old }
    ensures { IsPass recorder.now pass.new }
{
    let page = "# HELP c one\n# TYPE c counter\nc 0\n\n";
    let before = shows(rt, alloc, recorder, pass, 0, page)?;
    describe(rt, alloc, recorder, pass, "two")?;
    Ok(before && shows(rt, alloc, recorder, pass, 1, page)?)
}

#[test]
fn passes_that_come_back_agree(rt: HostRuntime) -> Result<(), Fail> {
    let alloc = rt.alloc();
    let state = PrometheusBuilder::new(alloc)?.build_state(alloc)?;
    let (recorder, mut root) = SharedRecorder::new(alloc, state)?;
    let one = recorder.split(&mut root);
    let two = recorder.split(&mut root);
    let agree = two_passes_agree(&rt, alloc, &recorder, &mut root, one, two);
    recorder.end(&rt, root);
    assert!(rt; agree?);
    Ok(())
}

/// Whether a page shows what was recorded into a histogram that was lent.
fn a_sample_is_shown<R: Wait>(
    rt: &R,
    alloc: Global,
    recorder: &SharedRecorder,
    pass: &mut SharedPass,
) -> Result<bool, Fail>
    requires { IsPass recorder.now pass.old }
    ensures { IsPass recorder.now pass.new }
{
    let key = Key::from_static_name("h");
    let id = recorder.register_histogram(rt, alloc, pass, &key)?;
    let Some(mut lent) = recorder.lend_histogram(rt, alloc, pass, id)? else {
        return Ok(false);
    };
    lent.handle
        .record(rt, alloc, &mut lent.pass, Fixed(2_500_000_000), 0)?;
    let page =
        "# TYPE h histogram\nh_bucket{le=\"1\"} 0\nh_bucket{le=\"+Inf\"} 1\nh_sum 2.5\nh_count 1\n\n";
    shows(rt, alloc, recorder, pass, 0, page)
}

#[test]
fn what_was_recorded_is_shown(rt: HostRuntime) -> Result<(), Fail> {
    let alloc = rt.alloc();
    let state = PrometheusBuilder::new(alloc)?
        .set_buckets(alloc, &[Fixed(1_000_000_000)])?
        .build_state(alloc)?;
    let (recorder, mut root) = SharedRecorder::new(alloc, state)?;
    let shown = a_sample_is_shown(&rt, alloc, &recorder, &mut root);
    recorder.end(&rt, root);
    assert!(rt; shown?);
    Ok(())
}

/// Whether a counter that is idle is gone from the next page, and is registered anew under another number.
fn an_idle_counter_goes<R: Wait>(
    rt: &R,
    alloc: Global,
    recorder: &SharedRecorder,
    pass: &mut SharedPass,
) -> Result<bool, Fail>
    requires { IsPass recorder.now pass.old }
    ensures { IsPass recorder.now pass.new }
{
    let first = register(rt, alloc, recorder, pass)?;
    let shown = shows(rt, alloc, recorder, pass, 0, "# TYPE c counter\nc 0\n\n")?;
    let gone = shows(rt, alloc, recorder, pass, 6, "")?;
    let again = register(rt, alloc, recorder, pass)?;
    Ok(first == 0 && shown && gone && again == 1 && pass.calls() == 4)
}

#[test]
fn a_page_removes_what_is_idle(rt: HostRuntime) -> Result<(), Fail> {
    let alloc = rt.alloc();
    let state = PrometheusBuilder::new(alloc)?
        .idle_timeout(MetricKindMask::COUNTER, Some(5))
        .build_state(alloc)?;
    let (recorder, mut root) = SharedRecorder::new(alloc, state)?;
    let goes = an_idle_counter_goes(&rt, alloc, &recorder, &mut root);
    recorder.end(&rt, root);
    assert!(rt; goes?);
    Ok(())
}
